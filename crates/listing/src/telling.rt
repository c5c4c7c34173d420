// The lines of a listing, put together from what a writer stores.
ghost use Rattle.std.specs.Prelude.{◌+◌, ◌*◌, ◌≡◌, [], ◌∷◌, ◌++◌, length};
ghost use Rattle.bus.specs.Coded.{phase_number, event_number, answer_of};
ghost use Rattle.text.specs.Text.{decimal, space, fields as fieldsText, word_line};
ghost use Rattle.text.specs.Parts.{Wrote};
ghost use Rattle.listing.specs.Text.{phase_letter, event_letter, refused_text, arrival_text, end_text, dropped_text, probed_text};
ghost use Rattle.listing.specs.Parts.{opening_text, winner_text};

use bus::{Answer, Event, Phase, Totals};
use rules::Slot;
use sorts::Address;
use text::Writer;

// A space and a number.
fn field(out: &mut Writer, n: u64)
    ensures { Wrote out.old out.new (space ∷ decimal n) 21 }
{
    out.put(b' ');
    out.number(n);
}

// 'Fields are decimal, one space apart': numbers, each after a space.
fn fields(out: &mut Writer, numbers: &[u64])
    ensures { Wrote out.old out.new (fieldsText numbers.now) (21 * length numbers.now) }
{
    for n in numbers {
        field(out, *n);
    }
}

// A line that opens with a word: 'each line closed by one newline'.
fn line(out: &mut Writer, word: &[u8], numbers: &[u64])
    ensures { Wrote out.old out.new (word_line word.now numbers.now) (length word.now + (21 * length numbers.now + 1)) }
{
    out.letters(word);
    fields(out, numbers);
    out.put(b'\n');
}

// A number of 32 bits in decimal, which has no more than ten digits: a report has no room for ten more of each.
fn short_number(out: &mut Writer, n: u32)
    ensures { Wrote out.old out.new (decimal n) 10 }
{
    out.number(u64::from(n));
}

// A space and a number of 32 bits.
fn short_field(out: &mut Writer, n: u32)
    ensures { Wrote out.old out.new (space ∷ decimal n) 11 }
{
    out.put(b' ');
    short_number(out, n);
}

// A space and a letter.
fn letter(out: &mut Writer, byte: u8)
    ensures { Wrote out.old out.new (space ∷ byte ∷ []) 2 }
{
    out.put(b' ');
    out.put(byte);
}

// 'phase P or T'
fn phase_letter(phase: Phase) -> u8
    ensures { result ≡ phase_letter (phase_number phase) }
{
    match phase {
        Phase::Parameter => b'P',
        Phase::Tie => b'T',
    }
}

// 'event I, C, or S'
fn event_letter(event: Event) -> u8
    ensures { result ≡ event_letter (event_number event) }
{
    match event {
        Event::Idle => b'I',
        Event::Collision => b'C',
        Event::Success => b'S',
    }
}

// 'REFUSED number offset'
pub fn refused(out: &mut Writer, number: u32, offset: usize)
    ensures { Wrote out.old out.new (refused_text number offset) 128 }
{
    line(out, b"REFUSED", &[u64::from(number), offset as u64]);
}

// 'R slot address number'
pub fn arrival(out: &mut Writer, slot: Slot, address: Address, number: u32)
    ensures { Wrote out.old out.new (arrival_text slot.0 address.0 number) 128 }
{
    line(
        out,
        b"R",
        &[u64::from(slot.0), u64::from(address.0), u64::from(number)],
    );
}

// 'D count', if packets were dropped
fn dropped(out: &mut Writer, answer: &Answer)
    ensures { Wrote out.old out.new (dropped_text (answer_of answer.now)) 23 }
{
    if answer.drops != 0 {
        line(out, b"D", &[answer.drops]);
    }
}

// 'slot phase start size event'
fn opening(out: &mut Writer, answer: &Answer)
    ensures { Wrote out.old out.new (opening_text (answer_of answer.now)) 56 }
{
    short_number(out, answer.slot.0);
    letter(out, phase_letter(answer.phase));
    fields(out, &[answer.start, answer.size]);
    letter(out, event_letter(answer.event));
}

// 'S with address, packet number, length', and the wait 'as a fourth number after S'
fn winner(out: &mut Writer, answer: &Answer)
    ensures { Wrote out.old out.new (winner_text (answer_of answer.now)) 44 }
{
    if let Event::Success = answer.event {
        short_field(out, answer.address.0);
        short_field(out, answer.number);
        short_field(out, answer.length);
        short_field(out, answer.wait);
    }
}

// The line of a probe; a refused step has none.
fn probed(out: &mut Writer, answer: &Answer)
    ensures { Wrote out.old out.new (probed_text (answer_of answer.now)) 101 }
{
    if answer.refusal == 0 {
        opening(out, answer);
        winner(out, answer);
        out.put(b'\n');
    }
}

// What a step's answer tells: the packets dropped, and the probe.
pub fn answer(out: &mut Writer, answer: &Answer)
    ensures { Wrote out.old out.new (dropped_text (answer_of answer.now) ++ probed_text (answer_of answer.now)) 128 }
{
    dropped(out, answer);
    probed(out, answer);
}

// 'END clock admitted sent lost waiting', and the packets turned away
pub fn ending(out: &mut Writer, totals: &Totals)
    ensures { Wrote out.old out.new (end_text totals.now.clock.0 totals.now.admitted totals.now.sent totals.now.lost totals.now.waiting totals.now.turned) 130 }
{
    let clock = u64::from(totals.clock.0);
    line(
        out,
        b"END",
        &[
            clock,
            totals.admitted,
            totals.sent,
            totals.lost,
            totals.waiting,
            totals.turned,
        ],
    );
}
