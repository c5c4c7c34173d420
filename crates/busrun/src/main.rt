// The program: a scenario on standard input to its listing on standard output, and what went wrong in one line on standard error. It reads and
// writes; all else is the libraries'.
#![tactic(auto)]

ghost use Rattle.std.specs.Prelude.{◌≤◌, ◌≡◌, length};

use std::io::{Error, ErrorKind, Read};
use text::Writer;

// Standard input and standard error.
const STDIN: i32 = 0;

const STDERR: i32 = 2;

// The bytes that there is space for.
const SPACE: usize = 65_537;

// Writes the first bytes of the room, if there are any to write.
fn write_first(rt: &HostRuntime, room: &[u8], count: usize) -> Result<(), Error>
    requires { count ≤ length room.now }
{
    if count == 0 {
        return Ok(());
    }
    rt.write_all(&room[..count])
}

// Room for the text of a turn.
fn room() -> [u8; 65536]
    ensures { 65536 ≡ length result }
{
    [0; 65536]
}

// Plays the scenario turn by turn as long as the run goes on and its text can be written; whether it is refused shows in its first turn.
fn play(rt: &HostRuntime, input: &[u8], refused: &mut bool) -> Result<(), Error> {
    let mut room = room();
    let mut turn = listing::open(input, &mut room);
    *refused = !turn.play.going;
    write_first(rt, &room, turn.length)?;
    let mut play = turn.play;
    while play.going {
        turn = listing::next(input, play, &mut room);
        write_first(rt, &room, turn.length)?;
        play = turn.play;
    }
    Ok(())
}

// Says on standard error, in one line, what went wrong.
fn say(words: &[u8]) {
    let mut room = room();
    let mut line = Writer {
        room: &mut room,
        at: 0,
    };
    line.letters(b"busrun: ");
    line.letters(words);
    line.put(b'\n');
    let end = line.at;
    io::write_all(STDERR, &room[..end]);
}

// Says what refuses the scenario, and which record.
fn say_refused(input: &[u8]) {
    if let Err(refused) = scenario::read(input) {
        let mut room = room();
        let number = u32::from(refused.refusal);
        let length = meanings::refused(input, number, refused.offset, &mut room);
        say(&room[..length]);
    }
}

// Says that the text could not be written, unless its reader has closed it.
fn say_unwritten(kind: ErrorKind) {
    if kind != ErrorKind::BrokenPipe {
        say(b"the output cannot be written");
    }
}

// Space for one byte more than a scenario may have, which is enough to see that it is too long.
fn space() -> [u8; 65537]
    ensures { 65537 ≡ length result }
{
    [0; 65537]
}

// Whether the input, of which so many bytes were read, was read without a failure: they fill the space, or a further read finds the end there.
// Each program has this, and what it says of a failure, for itself: no contract can say what a file gives or takes, so that a library of them
// would promise nothing.
fn is_read(rt: &HostRuntime, got: usize) -> bool {
    let mut more = [0u8; 1];
    got == SPACE || matches!(rt.stdin().read(&mut more), Ok(0))
}

// Plays the input, of which a part could be read or all, and says what went wrong, if anything did.
fn run(rt: &HostRuntime, input: &[u8], read: bool) {
    let mut refused = false;
    let written = play(rt, input, &mut refused);
    if !read {
        say(b"the input cannot be read");
        return;
    }
    if refused {
        say_refused(input);
        return;
    }
    if let Err(e) = written {
        say_unwritten(e.kind());
    }
}

fn main(rt: HostRuntime) {
    let mut input = space();
    let got = io::read_full(STDIN, &mut input);
    let read = is_read(&rt, got);
    run(&rt, &input[..got], read);
}
