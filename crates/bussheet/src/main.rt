// The program: the scenario files named as arguments to one sheet on standard output, and what went wrong, a line for each thing, on standard
// error. It reads and writes; all else is the libraries'.
#![tactic(auto)]

ghost use Rattle.std.specs.Prelude.{◌≤◌, ◌≡◌, length};
ghost use Rattle.sheet.specs.Sheet.{most_runs};

use page::{Entry, Refusal};
use scenario::Refused;
use sheet::{MOST_RUNS, Placed, Run, Sheet, Sums};
use std::env::{Env, FillError};
use std::fs;
use std::io::{Error, ErrorKind, Read};
use std::os::fd::AsRawFd;
use text::Writer;

// Standard output and standard error.
const STDOUT: i32 = 1;

const STDERR: i32 = 2;

// The bytes that there is space for: one more than a scenario may have, which is enough to see that it is too long.
const SPACE: usize = 65_537;

// Where the name of a file is no UTF-8, the file is open at this descriptor and as many more as its argument's place (tools/run sees to it).
const HANDED: usize = 600;

// What becomes of a file: its scenario's run, or what refuses it; nothing where the file cannot be read.
type Outcome = Option<Result<Run, Refused>>;

// Says on standard error, in one line, what went wrong. It stays a function of its own in the compiled program: `main` would hold its room under
// the runs that are measured.
#[inline(never)]
fn say(words: &[u8]) {
    let mut room = io::large_buffer();
    let mut line = Writer {
        room: &mut room,
        at: 0,
    };
    line.letters(b"bussheet: ");
    line.letters(words);
    line.put(b'\n');
    let end = line.at;
    io::write_all(STDERR, &room[..end]);
}

// The same of a file, with its name.
fn say_of(name: &[u8], words: &[u8]) {
    let mut room = io::large_buffer();
    let mut line = Writer {
        room: &mut room,
        at: 0,
    };
    line.letters(name);
    line.letters(b": ");
    line.letters(words);
    let end = line.at;
    say(&room[..end]);
}

// Says what refuses the scenario of a file, and which record.
fn say_refused(name: &[u8], input: &[u8], refused: Refused) {
    let mut room = io::large_buffer();
    let number = u32::from(refused.refusal);
    let length = meanings::refused(input, number, refused.offset, &mut room);
    say_of(name, &room[..length]);
}

// Says that more files are named than a sheet has runs: in one room, where `say` would take another.
#[inline(never)]
fn say_too_many() {
    let mut room = io::large_buffer();
    let named = text::letters(&mut room, 0, b"bussheet: refused, number 23: ");
    let said = meanings::meaning(&mut room, named, u32::from(sheet::Refused::TooMany));
    let end = text::put(&mut room, said, b'\n');
    io::write_all(STDERR, &room[..end]);
}

// Says that the text could not be written, unless its reader has closed it.
fn say_unwritten(kind: ErrorKind) {
    if kind != ErrorKind::BrokenPipe {
        say(b"the output cannot be written");
    }
}

// Says of a file that it cannot be read.
fn say_unread(name: &[u8]) {
    say_of(name, b"the file cannot be read");
}

// Space for the bytes of a file.
fn space() -> [u8; 65537]
    ensures { 65537 ≡ length result }
{
    [0; 65537]
}

// Whether a file of which so many bytes were read was read without a failure: they fill the space, or a further read finds the end there.
// Each program has this, and what it says of a failure, for itself: no contract can say what a file gives or takes, so that a library of them
// would promise nothing.
fn is_read(file: &mut fs::File, got: usize) -> bool {
    let mut more = [0u8; 1];
    got == SPACE || matches!(file.read(&mut more), Ok(0))
}

// What becomes of a file with this name, open.
fn measured(file: &mut fs::File, name: &[u8]) -> Outcome {
    let mut input = space();
    let got = io::read_full(file.as_raw_fd(), &mut input);
    if !is_read(file, got) {
        say_unread(name);
        return None;
    }
    let outcome = measure::measure(&input[..got]);
    if let Err(refused) = outcome {
        say_refused(name, &input[..got], refused);
    }
    Some(outcome)
}

// What becomes of a file with this name, at a path.
fn opened(rt: &HostRuntime, path: &str, name: &[u8]) -> Outcome {
    match fs::open(rt, path) {
        Ok(mut file) => measured(&mut file, name),
        Err(_) => {
            say_unread(name);
            None
        }
    }
}

// The last digit of a number.
fn digit(n: usize) -> u8 {
    b'0' + (n % 10) as u8
}

// The path of the open file that is handed over for an argument. By its digits, in eleven bytes: a writer's room would lie on the stack under
// the run that is measured.
fn handed(i: usize) -> [u8; 11] {
    let n = HANDED + i % 400;
    let mut path = *b"/dev/fd/000";
    path[8] = digit(n / 100);
    path[9] = digit(n / 10);
    path[10] = digit(n);
    path
}

// What becomes of the file with this name, which an argument has. The library opens a file by text alone: one with a name that is no UTF-8 has
// to be handed over.
fn found(rt: &HostRuntime, i: usize, name: &[u8]) -> Outcome {
    if let Ok(path) = str::from_utf8(name) {
        return opened(rt, path, name);
    }
    match str::from_utf8(&handed(i)) {
        Ok(path) => opened(rt, path, name),
        Err(_) => {
            say_unread(name);
            None
        }
    }
}

// What becomes of the file that an argument names; there is none with a name for which there is no space.
fn played(rt: &HostRuntime, i: usize) -> Outcome {
    let mut name = io::buffer();
    match rt.arg(i, &mut name) {
        Ok(length) => found(rt, i, &name[..length]),
        Err(FillError::TooLong) => {
            say_unread(&name);
            None
        }
        Err(FillError::NotPresent) => found(rt, i, b""),
    }
}

// What a line is of; a run's is its row of the sheet.
fn entry(outcome: Outcome, row: Run) -> Entry {
    match outcome {
        Some(Ok(_)) => Entry::Run(row),
        Some(Err(refused)) => Entry::Refused(Refusal {
            number: u32::from(refused.refusal),
            offset: refused.offset,
        }),
        None => Entry::Unread,
    }
}

// The run of a file that has one, for the sheet.
fn run(outcome: Outcome) -> Run {
    match outcome {
        Some(Ok(run)) => run,
        _ => sheet::NO_RUN,
    }
}

// Writes the line of an entry with its name.
fn write_named(rt: &HostRuntime, entry: Entry, name: &[u8]) -> Result<(), Error> {
    let mut room = io::large_buffer();
    let count = page::line(entry, name, &mut room);
    rt.write_all(&room[..count])
}

// Writes the line of the file that an argument names; of a name that is too long, the bytes for which there is space.
fn write_line(rt: &HostRuntime, i: usize, entry: Entry) -> Result<(), Error> {
    let mut name = io::buffer();
    match rt.arg(i, &mut name) {
        Ok(length) => write_named(rt, entry, &name[..length]),
        Err(FillError::TooLong) => write_named(rt, entry, &name),
        Err(FillError::NotPresent) => write_named(rt, entry, b""),
    }
}

// A function of its own in the compiled program, as `say` is.
#[inline(never)]
fn write_heading(rt: &HostRuntime) -> Result<(), Error> {
    let mut room = io::large_buffer();
    let count = page::heading(&mut room);
    rt.write_all(&room[..count])
}

// Writes the lines that close the sheet, with the name of the run that comes highest.
fn write_closing(
    rt: &HostRuntime,
    sums: Sums,
    highest: Option<Placed>,
    name: &[u8],
) -> Result<(), Error> {
    let mut room = io::large_buffer();
    let count = page::closing(sums, highest, name, &mut room);
    rt.write_all(&room[..count])
}

// The argument that names the run which comes highest; where none has a figure 0, the program's own name, which is not written then.
fn argument_of(highest: Option<Placed>) -> usize {
    match highest {
        Some(p) if p.place < MOST_RUNS => p.place + 1,
        _ => 0,
    }
}

// Writes the lines that close the sheet, with the name that the arguments have for the highest: none where it is longer than the room.
fn close(rt: &HostRuntime, sums: Sums, highest: Option<Placed>) -> Result<(), Error> {
    let mut name = io::buffer();
    match rt.arg(argument_of(highest), &mut name) {
        Ok(length) => write_closing(rt, sums, highest, &name[..length]),
        Err(_) => write_closing(rt, sums, highest, b""),
    }
}

// Writes a sheet and what became of its files, as long as it can be written.
fn write(rt: &HostRuntime, sheet: Sheet, files: &[Outcome]) -> Result<(), Error> {
    write_heading(rt)?;
    for (i, (outcome, row)) in files.iter().zip(&sheet.rows).enumerate() {
        write_line(rt, i + 1, entry(*outcome, *row))?;
    }
    close(rt, sheet.sums, sheet.highest)
}

// 'REFUSED 23 0', where more files are named than a sheet has runs.
fn refuse() {
    io::write_all(STDOUT, b"REFUSED 23 0\n");
    say_too_many();
}

// Whether there is such an argument.
fn is_argument(rt: &HostRuntime, i: usize) -> bool {
    let mut first = [0u8; 1];
    !matches!(rt.arg(i, &mut first), Err(FillError::NotPresent))
}

// How many files are named: the first argument is the program's own name. The library hands arguments out by their numbers.
fn file_count(rt: &HostRuntime) -> usize {
    for i in 0..usize::MAX {
        if !is_argument(rt, i + 1) {
            return i;
        }
    }
    usize::MAX
}

// Plays so many files and writes their sheet. A function of its own in the compiled program, so that its rows lie under no refusal.
#[inline(never)]
fn play_all(rt: &HostRuntime, count: usize)
    requires { count ≤ most_runs }
{
    let mut files = [None; 256];
    let mut runs = [sheet::NO_RUN; 256];
    for (i, (file, its)) in files[..count].iter_mut().zip(&mut runs).enumerate() {
        *file = played(rt, i + 1);
        *its = run(*file);
    }
    // Nothing refuses them: they are no more than a sheet has runs, and a measured run balances (`fits` of measure/proofs/Promises).
    if let Ok(sheet) = sheet::draw(runs, count) {
        if let Err(e) = write(rt, sheet, &files[..count]) {
            say_unwritten(e.kind());
        }
    }
}

fn main(rt: HostRuntime) {
    let count = file_count(&rt);
    if MOST_RUNS < count {
        refuse();
        return;
    }
    play_all(&rt, count);
}
