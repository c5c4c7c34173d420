// What a refusal number means, in words, and which record of a scenario is refused: text in room that the caller lends. Every call takes
// any input.
#![tactic(auto)]

ghost use Rattle.std.specs.Prelude.{◌≤◌, ◌≡◌, length};
ghost use Rattle.text.specs.Room.{room_bytes, stored, past, room_with};
ghost use Rattle.meanings.specs.Meanings.{other_meaning, call_meaning, meaning_of};
ghost use Rattle.text.specs.Parts.{Wrote};
ghost use Rattle.meanings.specs.Refused.{number_text, refused_text};

use text::Writer;

mod records;

// '22: scenario above 65,536 bytes', which is said of no record.
const TOO_LONG: u32 = 22;

// What a number means that refuses a scenario, a batch of runs, a begin or a probe.
#[tactic(auto, unfolding(crate::specs::Meanings::other_meaning))]
fn other_words(number: u32) -> &'static [u8]
    ensures { result.now ≡ other_meaning number }
{
    match number {
        18 => b"the input ends inside a record or before the run record",
        19 => b"a record has no known kind, or not the length of its kind",
        20 => b"a record is out of place, or bytes come after the run record",
        21 => b"an arrival has a time below that of the arrival before it",
        22 => b"a scenario has at most 65,536 bytes",
        23 => b"a sheet has at most 256 runs",
        24 => b"a run does not balance: admitted is not sent + lost + waiting",
        25 => b"a contention cannot begin while one is under way",
        26 => b"there is nothing to probe while no contention is under way",
        _ => b"unknown number",
    }
}

// What a number means that refuses an admission or a step, or one of those above.
#[tactic(auto, unfolding(crate::specs::Meanings::call_meaning))]
fn call_words(number: u32) -> &'static [u8]
    ensures { result.now ≡ call_meaning number }
{
    match number {
        11 => b"no station has the address of an arrival",
        12 => b"a value is outside its range: PRI 0 to D - 1, RTDG 0 to 1,073,741,824, RTVC 0",
        13 => b"a packet length is outside 1 to 4,096",
        14 => b"an RTDG packet comes after its latest start",
        15 => b"the 16 places of a station are filled",
        16 => b"4,294,967,295 packets have been admitted, and no more can be",
        17 => b"the clock is above 1,073,737,728, past which no slot is probed",
        _ => other_words(number),
    }
}

// What a number means.
#[tactic(auto, unfolding(crate::specs::Meanings::meaning_of))]
fn words_of(number: u32) -> &'static [u8]
    ensures { result.now ≡ meaning_of number }
{
    match number {
        1 => b"the state that was lent breaks a standing condition",
        2 => b"the discipline is none of 0 PRI, 1 RTDG, 2 RTVC",
        3 => b"D is outside 2 to 65,536",
        4 => b"A is outside 2 to 65,536",
        5 => b"q is outside its range: 1 to 65,535 in RTDG, otherwise 1",
        6 => b"the number of stations is outside 1 to 64",
        7 => b"a station has an address at or above A",
        8 => b"a station has the address of an earlier station",
        9 => b"a capability is outside its range: 0 to D - 1 in RTVC, otherwise 0",
        10 => b"a station has the capability of an earlier station",
        _ => call_words(number),
    }
}

// What a number means, from an offset of the room on; the offset past it.
pub fn meaning(room: &mut [u8; 65536], at: usize, number: u32) -> usize
    ensures value { result ≡ past at (meaning_of number) }
    ensures room_after { room.new ≡ stored room.old at (meaning_of number) }
{
    text::letters(room, at, words_of(number))
}

// A number, and what it means.
fn named(out: &mut Writer, number: u32)
    ensures { Wrote out.old out.new (number_text number) 108 }
{
    out.letters(b"refused, number ");
    out.number(u64::from(number));
    out.letters(b": ");
    out.letters(words_of(number));
}

// The number and what it means, and the record, but of a scenario that is too long; an offset past the input's end counts as that.
fn whole(out: &mut Writer, input: &[u8], number: u32, offset: usize)
    ensures { Wrote out.old out.new (refused_text input.now number offset) 189 }
{
    named(out, number);
    if number == TOO_LONG {
        return;
    }
    records::told(out, input, offset.min(input.len()));
}

// The text of a refused scenario, at the start of the room; how many bytes it has.
pub fn refused(input: &[u8], number: u32, offset: usize, room: &mut [u8; 65536]) -> usize
    ensures value { result ≡ length (refused_text input.now number offset) }
    ensures room_after { room.new ≡ room_with (refused_text input.now number offset) room.old }
    ensures upper_bound { result ≤ room_bytes }
{
    let mut out = Writer { room, at: 0 };
    whole(&mut out, input, number, offset);
    out.at
}
