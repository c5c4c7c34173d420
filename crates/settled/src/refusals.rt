// Calls for each refusal 1 to 17, and a neighbour that is accepted where a range ends.
use crate::{edits, lines, segments};
use sorts::disciplines::{PRI, RTDG, RTVC};
use state::{Listed, Row, State};

// A row cut to a length.
fn cut(row: Row, length: usize) -> Row {
    Row { length, ..row }
}

fn settings(text: &[u8], discipline: u32, d: u32, a: u32, q: u32, n: usize) {
    let settings = segments::settings(discipline, d, a, q, n);
    lines::set_up(text, settings, segments::row_1_5_6());
}

// 2 to 6: the numbers of the set-up.
fn numbers() {
    settings(b"2, discipline 3", 3, 4, 8, 1, 3);
    settings(b"3, D 1", PRI, 1, 8, 1, 3);
    settings(b"3, D 65537", PRI, 65_537, 8, 1, 3);
    settings(b"0, D 65536", PRI, 65_536, 8, 1, 3);
    settings(b"4, A 1", PRI, 4, 1, 1, 3);
    settings(b"4, A 65537", PRI, 4, 65_537, 1, 3);
    settings(b"5, q 2 in PRI", PRI, 4, 8, 2, 3);
    settings(b"5, q 0 in RTDG", RTDG, 4, 8, 0, 3);
    settings(b"5, q 65536 in RTDG", RTDG, 4, 8, 65_536, 3);
    settings(b"0, q 65535 in RTDG", RTDG, 4, 8, 65_535, 3);
    settings(b"6, N 0", PRI, 4, 8, 1, 0);
    settings(b"6, N 65", PRI, 4, 8, 1, 65);
    let short = cut(segments::row_1_5_6(), 2);
    lines::set_up(
        b"6, a row of 2 for N 3",
        segments::settings(PRI, 4, 8, 1, 3),
        short,
    );
    settings(b"0, a row of 3 for N 2", PRI, 4, 8, 1, 2);
}

// A set-up of three stations in this discipline, D 4 and A 8.
fn stations(text: &[u8], discipline: u32, listed: [Listed; 3]) {
    let settings = segments::settings(discipline, 4, 8, 1, 3);
    lines::set_up(text, settings, segments::row(listed));
}

// 7 to 10: the stations.
fn rows() {
    let x = segments::listed(1, 0);
    let y = segments::listed(5, 0);
    stations(
        b"7, address 8 with A 8",
        PRI,
        [x, y, segments::listed(8, 0)],
    );
    stations(b"8, address 5 again", PRI, [x, y, y]);
    stations(
        b"9, capability 1 in PRI",
        PRI,
        [x, segments::listed(5, 1), y],
    );
    stations(
        b"9, capability 4 with D 4",
        RTVC,
        [x, segments::listed(5, 4), y],
    );
    stations(
        b"10, capability 0 again",
        RTVC,
        [x, y, segments::listed(6, 1)],
    );
}

// 1, and 11 to 17: the calls on a state.
fn calls() {
    let s = segments::two_waiting();
    let datagrams = segments::rtdg();
    lines::lent(b"0, a state that stands", s);
    lines::lent(b"1, the state of a refused set-up", refused_set_up());
    lines::admitted(b"11, address 2", s, 2, 2, 1);
    lines::admitted(b"11, address 65537", s, 65_537, 2, 1);
    lines::admitted(b"12, priority 4 with D 4", s, 5, 4, 1);
    lines::admitted(b"0, priority 3 with D 4", s, 5, 3, 1);
    lines::admitted(
        b"12, latest start 1073741825",
        datagrams,
        5,
        1_073_741_825,
        1,
    );
    lines::admitted(b"12, value 1 in RTVC", segments::rtvc(), 5, 1, 1);
    lines::admitted(b"13, length 4097", s, 5, 2, 4_097);
    let later = edits::with_clock(datagrams, 8);
    lines::admitted(b"14, latest start 7 at clock 8", later, 5, 7, 1);
    let full = segments::more(s, 16);
    lines::admitted(b"15, a full queue", full, 5, 2, 1);
    let all = edits::with_counts(s, 4_294_967_295, 4_294_967_293, 0);
    lines::admitted(b"16, 4294967295 admitted", all, 5, 2, 1);
    let but_one = edits::with_counts(s, 4_294_967_294, 4_294_967_292, 0);
    lines::admitted(b"0, 4294967294 admitted", but_one, 5, 2, 1);
    lines::stepped(b"17, clock 1073741824", edits::with_clock(s, 1_073_741_824));
}

// A state that is lent with other counts.
fn count(text: &[u8], s: State, admitted: u64, sent: u64, lost: u64) {
    lines::lent(text, edits::with_counts(s, admitted, sent, lost));
}

// 1: 'clock and admitted count within range; admitted = sent + lost + waiting'; the packets turned away up to their stop
fn counts() {
    let s = segments::two_waiting();
    lines::lent(b"clock 1073741825", edits::with_clock(s, 1_073_741_825));
    count(b"admitted 4294967296", s, 4_294_967_296, 4_294_967_294, 0);
    lines::lent(
        b"turned away 4294967296",
        edits::with_turned(s, 4_294_967_296),
    );
    lines::lent(
        b"turned away 4294967295",
        edits::with_turned(s, 4_294_967_295),
    );
    count(b"admitted one too many", s, 3, 0, 0);
    count(b"sent one too many", s, 2, 1, 0);
    count(b"lost one too many", s, 2, 0, 1);
    count(b"a sum past 64 bits", s, 2, 18_446_744_073_709_551_615, 1);
}

fn refused_set_up() -> State {
    state::set_up(segments::settings(PRI, 0, 0, 0, 0), segments::row_1_5_6()).state
}

pub fn each() {
    numbers();
    rows();
    calls();
    counts();
}
