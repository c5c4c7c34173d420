// Lines of what the calls answer: a label, a colon, and numbers.
ghost use Rattle.std.specs.Prelude.{◌<◌};

use crate::segments;
use bus::{Answer, Begun, Report};
use sorts::Address;
use state::{Row, Settings, State};

fn label(text: &[u8]) {
    io::write_all(1, text);
    io::write_all(1, b":");
}

fn numbers(numbers: &[u64]) {
    for n in numbers {
        io::write_all(1, b" ");
        io::print_decimal(1, *n);
    }
}

fn newline() {
    io::write_all(1, b"\n");
}

fn line(text: &[u8], told: &[u64]) {
    label(text);
    numbers(told);
    newline();
}

// A set-up: the refusal, the faulty station's place, and what a step of the state that came back answers.
pub fn set_up(text: &[u8], settings: Settings, row: Row) {
    let r = state::set_up(settings, row);
    let next = bus::step(r.state);
    let told = [
        u64::from(r.verdict.refusal),
        r.verdict.station as u64,
        u64::from(next.answer.refusal),
    ];
    line(text, &told);
}

// An admission: the refusal and the packet's number.
pub fn admitted(text: &[u8], s: State, address: u32, value: u32, length: u32) {
    let a = bus::admit(s, Address(address), value, length).answer;
    line(text, &[u64::from(a.refusal), u64::from(a.number)]);
}

// The packets admitted, sent, lost and turned away of a state; the refusal and the packets turned away that it closes with.
fn counting(s: State) -> [u64; 6] {
    let t = bus::closing(s);
    [
        s.segment.admitted,
        s.segment.sent,
        s.segment.lost,
        s.segment.turned,
        u64::from(t.refusal),
        t.turned,
    ]
}

// A state's counts; and those after an admission, with its refusal.
pub fn counts(text: &[u8], s: State) {
    line(text, &counting(s));
}

pub fn counted(text: &[u8], s: State, address: u32, value: u32, length: u32) {
    let r = bus::admit(s, Address(address), value, length);
    label(text);
    numbers(&[u64::from(r.answer.refusal)]);
    numbers(&counting(r.state));
    newline();
}

// A step, and a probe: all of its answer.
pub fn stepped(text: &[u8], s: State) {
    line(text, &answered(&bus::step(s).answer));
}

pub fn probed(text: &[u8], s: State) {
    line(text, &answered(&bus::probe(s).answer));
}

fn answered(a: &Answer) -> [u64; 12] {
    [
        u64::from(a.refusal),
        a.drops,
        u64::from(a.slot.0),
        u64::from(u32::from(a.phase)),
        a.start,
        a.size,
        u64::from(u32::from(a.event)),
        u64::from(a.address.0),
        u64::from(a.number),
        u64::from(a.length),
        u64::from(a.wait),
        u64::from(a.ended),
    ]
}

// The address, the packet's number and the parameter of the station at a place.
fn offer(b: &Begun, i: usize) -> [u64; 3]
    requires { i < 64 }
{
    [
        u64::from(b.addresses[i].0),
        u64::from(b.numbers[i]),
        b.parameters[i],
    ]
}

// A begin: its answer, and the offers of the stations at places 0 to 2.
pub fn begun(text: &[u8], s: State) {
    let b = bus::begin(s).answer;
    let told = [
        u64::from(b.refusal),
        b.drops,
        u64::from(b.slot.0),
        b.start,
        b.size,
        b.contenders,
    ];
    label(text);
    numbers(&told);
    // By place: three rows of an answer lie side by side.
    for i in 0..3 {
        numbers(&offer(&b, i));
    }
    newline();
}

// The refusal of a call that a stretch reports.
fn refusal(r: &Report) -> u64 {
    let number = match r {
        Report::Step { answer, .. } => answer.refusal,
        Report::Arrival { admitted, .. } => admitted.refusal,
    };
    u64::from(number)
}

// A step made in a stretch: its refusal, how many calls were made, and the steps that are left.
pub fn in_stretch(text: &[u8], s: State) {
    let d = bus::play(s, segments::coming(0), 1);
    let told = [refusal(&d.reports[0]), d.made as u64, u64::from(d.left)];
    line(text, &told);
}

// A state that comes back: its clock, whether a contention is under way, the window's start and size, the word of contenders, the packets lost,
// and the refusals of a begin and of a probe that follow.
pub fn after(text: &[u8], s: State) {
    let begun = bus::begin(s).answer;
    let probed = bus::probe(s).answer;
    let contention = s.segment.contention;
    let told = [
        u64::from(s.segment.clock.0),
        u64::from(contention.begun),
        contention.window.start,
        contention.window.size,
        s.segment.contenders,
        s.segment.lost,
        u64::from(begun.refusal),
        u64::from(probed.refusal),
    ];
    line(text, &told);
}

// A state lent to an admission, to a step and for the closing numbers, and then to an admission and a step in one stretch: their refusals.
pub fn lent(text: &[u8], s: State) {
    let admitted = bus::admit(s, Address(1), 0, 1).answer;
    let stepped = bus::step(s).answer;
    let closed = bus::closing(s);
    let d = bus::play(s, segments::coming(1), 1);
    let told = [
        u64::from(admitted.refusal),
        u64::from(stepped.refusal),
        u64::from(closed.refusal),
        refusal(&d.reports[0]),
        refusal(&d.reports[1]),
    ];
    line(text, &told);
}
