// The record at an offset of a scenario, in words.
ghost use Rattle.std.specs.Prelude.{◌≤◌, ◌<◌, ◌≡◌, length, drop};
ghost use Rattle.text.specs.Parts.{Wrote};
ghost use Rattle.scenario.specs.Format.{length_in};
ghost use Rattle.meanings.specs.Refused.{place_of, kind_words, record_words, record_text};

use text::Writer;

// The two-byte number at the start of bytes; what lies past their end counts as 0.
fn two(bytes: &[u8]) -> u16
    ensures { result ≡ length_in bytes.now }
{
    match bytes {
        [] => 0,
        [low] => u16::from(*low),
        [low, high, ..] => u16::from_le_bytes([*low, *high]),
    }
}

// The place of the record at an offset, counted from 1. A record says how long it is, so that no range has the offsets where they begin.
fn place(input: &[u8], offset: usize) -> usize
    requires { offset ≤ length input.now }
    ensures { result ≡ place_of input.now offset }
{
    let mut at = 0;
    let mut count = 1;
    while at < offset {
        at += 2 + usize::from(two(&input[at..]));
        count += 1;
    }
    count
}

// What a record of this kind is.
#[tactic(auto, unfolding(crate::specs::Refused::kind_words))]
fn kind(number: u16) -> &'static [u8]
    ensures { result.now ≡ kind_words number }
{
    match number {
        1 => b"a set-up",
        2 => b"a station",
        3 => b"an arrival",
        4 => b"a run",
        _ => b"of no known kind",
    }
}

// What the record at the beginning of the rest of the input is.
#[tactic(auto, unfolding(crate::specs::Refused::record_words))]
fn what(rest: &[u8]) -> &'static [u8]
    ensures { result.now ≡ record_words rest.now }
{
    match rest {
        [] => b"where the input ends",
        [_, _, low, high, ..] => kind(u16::from_le_bytes([*low, *high])),
        _ => b"cut short",
    }
}

// The record at an offset: its place, what it is, and its first byte.
pub fn told(out: &mut Writer, input: &[u8], offset: usize)
    requires { offset ≤ length input.now }
    ensures { Wrote out.old out.new (record_text input.now offset) 81 }
{
    out.letters(b"; record ");
    out.number(place(input, offset) as u64);
    out.letters(b", ");
    out.letters(what(&input[offset..]));
    out.letters(b", at byte ");
    out.number(offset as u64);
}
