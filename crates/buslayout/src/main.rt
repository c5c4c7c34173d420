// The program: a layout on standard input to its scenario on standard output, or with --show a scenario to its layout; and what went wrong in one
// line on standard error. It reads and writes; all else is the libraries'.
#![tactic(auto)]

ghost use Rattle.std.specs.Prelude.{◌≡◌, length};

use layout::WrongLine;
use scenario::Refused;
use std::env::{Env, FillError};
use std::io::{Error, ErrorKind, Read};

// Standard input and standard error.
const STDIN: i32 = 0;

const STDERR: i32 = 2;

// The bytes that there is space for: one more than a layout may have, and one more than a scenario may have, which is enough to see that
// it is too long.
const LAYOUT_SPACE: usize = 524_289;

const SCENARIO_SPACE: usize = 65_537;

// Says a part of the line on standard error.
fn say(words: &[u8]) {
    io::write_all(STDERR, words);
}

// Says, in one line, what went wrong.
fn say_line(words: &[u8]) {
    say(b"buslayout: ");
    say(words);
    say(b"\n");
}

// Says that the text could not be written, unless its reader has closed it.
fn say_unwritten(kind: ErrorKind) {
    if kind != ErrorKind::BrokenPipe {
        say_line(b"the output cannot be written");
    }
}

// Says a word that stands before a number.
fn say_word(code: u32) {
    say(layout::word_of(code));
}

// Says a refusal's number and what it means.
fn say_refusal(number: u32) {
    say(b"refused, number ");
    io::print_decimal(STDERR, u64::from(number));
    say(b": ");
    let mut room = io::large_buffer();
    let end = meanings::meaning(&mut room, 0, number);
    say(&room[..end]);
}

// Says which word was expected.
fn say_expected(code: u32) {
    say(b"expected '");
    say_word(code);
    say(b"'");
}

// Says that a number was expected after a word.
fn say_number_expected(code: u32) {
    say(b"expected a number after '");
    say_word(code);
    say(b"', as 263 or 0x0107, at most 4,294,967,295");
}

// Says what was expected by any other fault.
fn say_other(fault: u32) {
    match fault {
        300 => say(b"expected the end of the line"),
        301 => say(b"expected 'bus'"),
        302 => say(b"expected 'station'"),
        303 => say(b"expected 'station', 'arrival', 'arrivals', 'attempt' or 'run'"),
        304 => say(b"expected 'arrival', 'arrivals', 'attempt' or 'run'"),
        305 => say(b"expected nothing after the run"),
        306 => say(b"expected an address of at most 65,535"),
        307 => say(b"expected a length of at most 65,535"),
        308 => say(b"expected at most 65,535 steps"),
        309 => say(b"expected 1 or more slots after 'every'"),
        _ => say(b"expected a slot after 'to' that is not below 'from'"),
    }
}

// Says what a fault is, by its number (`WrongLine` of layout): a refusal's below 100, and from 100 and from 200 on those of the words.
fn say_fault(fault: u32) {
    match fault {
        2 => {
            say_refusal(fault);
            say(b"; expected 'PRI', 'RTDG' or 'RTVC'");
        }
        ..100 => say_refusal(fault),
        100..200 => say_expected(fault - 100),
        200..300 => say_number_expected(fault - 200),
        _ => say_other(fault),
    }
}

// Says which line of a layout is wrong, and its fault.
fn say_wrong(wrong: WrongLine) {
    say(b"buslayout: line ");
    io::print_decimal(STDERR, wrong.line as u64);
    say(b": ");
    say_fault(wrong.fault);
    say(b"\n");
}

// Space for a layout.
fn layout_space() -> [u8; 524289]
    ensures { 524289 ≡ length result }
{
    [0; 524289]
}

// Space for a scenario.
fn scenario_space() -> [u8; 65537]
    ensures { 65537 ≡ length result }
{
    [0; 65537]
}

// Whether the input, of which so many bytes were read into so much space, was read without a failure: they fill the space, or a further read
// finds the end there.
// Each program has this, and what it says of a failure, for itself: no contract can say what a file gives or takes, so that a library of them
// would promise nothing.
fn is_read(rt: &HostRuntime, got: usize, space: usize) -> bool {
    let mut more = [0u8; 1];
    got == space || matches!(rt.stdin().read(&mut more), Ok(0))
}

// Writes a text, or says that it could not be written.
fn write_text(rt: &HostRuntime, text: &[u8]) {
    if let Err(e) = rt.write_all(text) {
        say_unwritten(e.kind());
    }
}

// Writes the scenario of a layout, or says what is wrong with it.
fn lay_out(rt: &HostRuntime, text: &[u8]) {
    let mut room = io::large_buffer();
    match layout::read(text, &mut room) {
        Ok(length) => write_text(rt, &room[..length]),
        Err(wrong) => say_wrong(wrong),
    }
}

// The scenario of the layout on standard input.
fn from_layout(rt: &HostRuntime) {
    let mut text = layout_space();
    let got = io::read_full(STDIN, &mut text);
    if !is_read(rt, got, LAYOUT_SPACE) {
        say_line(b"the input cannot be read");
        return;
    }
    if got == LAYOUT_SPACE {
        say_line(b"a layout has at most 524,288 bytes");
        return;
    }
    lay_out(rt, &text[..got]);
}

// Writes the line of the record at an offset; the offset of the next record.
fn show_record(rt: &HostRuntime, input: &[u8], at: usize) -> Result<Option<usize>, Error> {
    let mut room = io::large_buffer();
    let shown = shown::show(input, at, &mut room);
    rt.write_all(&room[..shown.length])?;
    Ok(shown.next)
}

// Writes the lines of a good scenario, a record a turn; it has no more records than bytes.
fn show_records(rt: &HostRuntime, input: &[u8]) -> Result<(), Error> {
    let mut next = show_record(rt, input, 0)?;
    for _ in 0..SCENARIO_SPACE {
        let Some(at) = next else {
            break;
        };
        next = show_record(rt, input, at)?;
    }
    Ok(())
}

// Says what refuses a scenario, and which record.
fn say_refused(input: &[u8], refused: Refused) {
    let mut room = io::large_buffer();
    let number = u32::from(refused.refusal);
    let length = meanings::refused(input, number, refused.offset, &mut room);
    say_line(&room[..length]);
}

// Writes a scenario as a layout, or says what refuses it.
fn show_all(rt: &HostRuntime, input: &[u8]) {
    if let Err(refused) = scenario::read(input) {
        say_refused(input, refused);
        return;
    }
    if let Err(e) = show_records(rt, input) {
        say_unwritten(e.kind());
    }
}

// The layout of the scenario on standard input.
fn from_scenario(rt: &HostRuntime) {
    let mut input = scenario_space();
    let got = io::read_full(STDIN, &mut input);
    if !is_read(rt, got, SCENARIO_SPACE) {
        say_line(b"the input cannot be read");
        return;
    }
    show_all(rt, &input[..got]);
}

// Whether there is such an argument; the first is the program's own name.
fn is_argument(rt: &HostRuntime, i: usize) -> bool {
    let mut first = [0u8; 1];
    !matches!(rt.arg(i, &mut first), Err(FillError::NotPresent))
}

// Whether the argument asks for a layout.
fn is_show(rt: &HostRuntime) -> bool {
    let mut word = io::buffer();
    match rt.arg(1, &mut word) {
        Ok(length) => words::same(&word[..length], b"--show"),
        Err(_) => false,
    }
}

fn main(rt: HostRuntime) {
    if !is_argument(&rt, 1) {
        from_layout(&rt);
    } else if !is_argument(&rt, 2) && is_show(&rt) {
        from_scenario(&rt);
    } else {
        say_line(b"usage: buslayout [--show]");
    }
}
