// The settled examples that are run, and calls for each refusal 1 to 17, 25 and 26. Every standing condition has its broken states in
// scripts/lent.table, which the program drive lends to the calls.
#![tactic(auto)]

mod edits;
mod lines;
mod refusals;
mod segments;
mod turned;

// 'Clock 1,073,737,728 steps; 1,073,737,729 gives 17.'
fn clock_end() {
    let s = segments::two_waiting();
    let last = edits::with_clock(s, 1_073_737_728);
    lines::stepped(b"clock 1073737728 steps", last);
    let past = edits::with_clock(s, 1_073_737_729);
    lines::stepped(b"clock 1073737729 gives 17", past);
    lines::in_stretch(b"clock 1073737728 in a stretch", last);
    lines::in_stretch(b"clock 1073737729 in a stretch", past);
}

// 'Length 4,096 passes, 0 and 4,097 give 13.'
fn lengths() {
    let s = segments::pri();
    lines::admitted(b"length 4096 passes", s, 5, 2, 4_096);
    lines::admitted(b"length 0 gives 13", s, 5, 2, 0);
    lines::admitted(b"length 4097 gives 13", s, 5, 2, 4_097);
}

// 'The 17th packet gives 15.'
fn seventeenth() {
    let s = segments::pri();
    let full = segments::more(s, 16);
    lines::admitted(b"the 16th packet passes", segments::more(s, 15), 5, 2, 1);
    lines::admitted(b"the 17th packet gives 15", full, 5, 2, 1);
    lines::admitted(b"the 17th at another station passes", full, 6, 2, 1);
}

// 'Latest start equal to the clock is admitted.'
fn latest_start() {
    let s = segments::rtdg();
    let t = edits::with_clock(s, 100);
    lines::admitted(b"latest start 100 at clock 100 passes", t, 5, 100, 1);
    lines::admitted(b"latest start 99 at clock 100 gives 14", t, 5, 99, 1);
}

// Stations 0007 and 0107: compared in full, at admission and in the tie phase.
fn full_addresses() {
    let s = segments::upper_bytes();
    lines::admitted(b"address 519 gives 11", s, 519, 0, 1);
    let t = segments::admit(s, 263, 0, 1);
    let first = segments::admit(t, 7, 0, 1);
    let second = segments::step(first);
    let third = segments::step(second);
    let fourth = segments::step(third);
    lines::stepped(b"addresses 7 and 263 collide", first);
    lines::stepped(b"and are tied", second);
    lines::stepped(b"among all addresses", third);
    lines::stepped(b"in the lower half", fourth);
    lines::stepped(b"7 wins", segments::step(fourth));
}

// P1: the wait is counted from the admission slot. Of two packets of a station the second is admitted at slot 10, once the first has been
// sent, and its wait is 0; admitted with the first, its wait is 10. 'admission slot not above the clock'.
fn waits() {
    let s = segments::admit(segments::pri(), 5, 2, 10);
    let after = segments::step(s);
    let later = segments::admit(after, 5, 2, 1);
    lines::stepped(b"admitted at slot 10, sent in it", later);
    let both = segments::admit(s, 5, 2, 1);
    lines::stepped(b"admitted at slot 0, sent in slot 10", segments::step(both));
    lines::lent(b"0, admission slot 10 at clock 10", later);
    lines::lent(
        b"1, admission slot 10 at clock 9",
        edits::with_clock(later, 9),
    );
}

// P10: 'station i in listed order at bit i', 'bits at N and above are clear'; what a station without its bit has is zero. Of three stations the
// two at places 1 and 2 contend: the word is 6.
fn words() {
    let s = segments::step(segments::two_waiting());
    lines::lent(b"0, the word 6", edits::with_word(s, 6));
    lines::lent(b"1, the word 14, a bit at N", edits::with_word(s, 14));
    let last = 9_223_372_036_854_775_814;
    lines::lent(b"1, a bit at place 63", edits::with_word(s, last));
    lines::lent(
        b"1, the word 3, each one place lower",
        edits::with_word(s, 3),
    );
    lines::lent(
        b"1, the word 7, a bit without a packet",
        edits::with_word(s, 7),
    );
    lines::lent(
        b"1, the word 2, a packet without its bit",
        edits::with_word(s, 2),
    );
    let before = segments::two_waiting();
    lines::lent(
        b"1, the word 6 between contentions",
        edits::with_word(before, 6),
    );
}

// P5: a begin shows who contends and what it drops, and takes no slot; a packet admitted after it does not join; '25, begin while one is under
// way; 26, probe while none is; both after 1, and 26 before 17, which belongs to the probe'. Each refusal stands with the state that comes back.
fn beginnings() {
    let s = segments::two_waiting();
    lines::begun(b"0, stations 5 and 6 contend", s);
    lines::after(b"0, the slot is not spent", segments::begin(s));
    lines::probed(b"26, none is under way", s);
    lines::after(b"26, as it was lent", segments::probe(s));
    let alone = segments::begin(segments::admit(segments::pri(), 5, 2, 1));
    let joined = segments::admit(alone, 1, 0, 1);
    lines::begun(b"25, one is under way", joined);
    lines::after(b"25, as it was lent: 5 contends", segments::begin(joined));
    lines::probed(b"0, nobody joins: 5 is alone", joined);
    lines::begun(b"0, nobody contends", segments::pri());
    lines::probed(
        b"0, and its probe ends it",
        segments::begin(segments::pri()),
    );
    let broken = edits::with_word(alone, 6);
    lines::begun(b"1 before 25", broken);
    lines::after(b"1, as it was lent", segments::begin(broken));
    lines::probed(b"1 before 26", edits::with_word(s, 6));
}

// The same past the last slot, and what a begin in RTDG drops.
fn late_beginnings() {
    let s = segments::two_waiting();
    let late = edits::with_clock(s, 1_073_737_729);
    lines::begun(b"0, a begin past the last slot", late);
    lines::probed(b"26 before 17", late);
    lines::probed(b"17, after that begin", segments::begin(late));
    lines::after(
        b"17, as it was lent",
        segments::probe(segments::begin(late)),
    );
    lines::stepped(b"17 of the step", late);
    lines::after(b"17, nothing has begun", segments::step(late));
    let two = segments::admit(segments::admit(segments::rtdg(), 5, 7, 1), 6, 30, 1);
    let later = edits::with_clock(two, 8);
    lines::begun(b"0, latest start 7 dropped at clock 8", later);
    lines::after(b"0, one lost", segments::begin(later));
    lines::probed(b"0, the probe drops none", segments::begin(later));
}

fn main() {
    clock_end();
    lengths();
    seventeenth();
    latest_start();
    full_addresses();
    waits();
    words();
    beginnings();
    late_beginnings();
    turned::each();
    refusals::each();
}
