// Packets turned away (P4): which admissions are counted, where the count stops, and a stretch.
use crate::{edits, lines, segments};
use state::State;

// RTDG at clock 8 when seven packets have been turned away. Station 5 has sixteen packets, whose latest start is 2.
fn crowded() -> State {
    let full = segments::more(segments::rtdg(), 16);
    edits::with_turned(edits::with_clock(full, 8), 7)
}

// The same with the last number given.
fn all_admitted() -> State {
    edits::with_counts(crowded(), 4_294_967_295, 4_294_967_279, 0)
}

// 'raised by exactly the admissions refused with 14 or 15'
fn raised() {
    let full = segments::more(segments::pri(), 16);
    lines::counted(b"15, the first turned away", full, 5, 2, 1);
    let one = segments::admit(full, 5, 2, 1);
    lines::counted(b"15, the second", one, 5, 2, 1);
    let s = crowded();
    lines::counted(b"14, one more than 7", s, 6, 7, 1);
    lines::counted(b"15, one more than 7", s, 5, 8, 1);
    lines::counted(b"14 before 15, counted once", s, 5, 7, 1);
}

// Any other admission leaves it, also of a late packet, or where no place is free.
fn left() {
    let s = crowded();
    lines::counted(b"11, late too", s, 2, 7, 1);
    lines::counted(b"12, no place too", s, 5, 1_073_741_825, 1);
    lines::counted(b"13, late and no place too", s, 5, 7, 0);
    lines::counted(b"16, not counted", all_admitted(), 6, 8, 1);
    lines::counted(b"0, not counted", s, 6, 8, 1);
}

// 'The count stops at 4,294,967,295.'
fn stop() {
    let s = crowded();
    let below = edits::with_turned(s, 4_294_967_294);
    lines::counted(b"15, one below the stop", below, 5, 8, 1);
    let at = edits::with_turned(s, 4_294_967_295);
    lines::counted(b"14, at the stop", at, 6, 7, 1);
    lines::counted(b"15, at the stop", at, 5, 8, 1);
    let past = edits::with_turned(s, 4_294_967_296);
    lines::counted(b"1, past the stop", past, 5, 8, 1);
}

// A stretch counts as single calls do.
fn stretches() {
    let s = crowded();
    let two = segments::admit(segments::admit(s, 1, 0, 1), 1, 0, 1);
    let three = segments::admit(two, 1, 0, 1);
    lines::counts(b"three late, one by one", segments::step(three));
    lines::counts(b"three late in a stretch", segments::stretch(s, 3));
    let below = edits::with_turned(s, 4_294_967_294);
    lines::counts(b"and past the stop", segments::stretch(below, 3));
}

pub fn each() {
    raised();
    left();
    stop();
    stretches();
}
