// What a command does: a call of the engine and the line of its answer, or a change of the state.
use crate::commands::Command;
use crate::{edits, lines, show, stretch};
use bus::{Answer, Arrivals, Begun, Totals};
use rules::{Admitted, Verdict};
use sorts::Address;
use state::{Row, Settings, State};

// 'U refusal station'
fn verdict(v: Verdict) {
    lines::write(b"U", &[u64::from(v.refusal), v.station as u64]);
}

// 'A refusal number'
fn admitted(a: Admitted) {
    lines::write(b"A", &[u64::from(a.refusal), u64::from(a.number)]);
}

// 'offer i address number parameter', 'in rising order, for each station that contends'
fn offers(b: &Begun) {
    for (i, parameter) in b.parameters.iter().enumerate() {
        if word::test(b.contenders, i) {
            let numbers = [
                i as u64,
                u64::from(b.addresses[i].0),
                u64::from(b.numbers[i]),
                *parameter,
            ];
            lines::write(b"offer", &numbers);
        }
    }
}

// 'B refusal drops slot start size contenders', and the offers
fn begun(b: &Begun) {
    let numbers = [
        u64::from(b.refusal),
        b.drops,
        u64::from(b.slot.0),
        b.start,
        b.size,
        b.contenders,
    ];
    lines::write(b"B", &numbers);
    offers(b);
}

// The answer to a probe or a step: its letter, and 'refusal drops slot phase start size event address number length wait ended'
fn answer(letter: &[u8], a: &Answer) {
    lines::write(letter, &stretch::answered(a));
}

// 'T refusal clock admitted sent lost waiting turned-away'
fn totals(t: &Totals) {
    let numbers = [
        u64::from(t.refusal),
        u64::from(t.clock.0),
        t.admitted,
        t.sent,
        t.lost,
        t.waiting,
        t.turned,
    ];
    lines::write(b"T", &numbers);
}

// Each call: the state that it hands back, whose answer is written. They are functions of their own, since a function pays at entry for the
// size of its locals, and a state is large.
fn set_up(settings: Settings, row: Row) -> State {
    let r = state::set_up(settings, row);
    verdict(r.verdict);
    r.state
}

fn admit(s: State, address: Address, value: u32, length: u32) -> State {
    let r = bus::admit(s, address, value, length);
    admitted(r.answer);
    r.state
}

fn begin(s: State) -> State {
    let r = bus::begin(s);
    begun(&r.answer);
    r.state
}

fn probe(s: State) -> State {
    let r = bus::probe(s);
    answer(b"O", &r.answer);
    r.state
}

fn step(s: State) -> State {
    let r = bus::step(s);
    answer(b"S", &r.answer);
    r.state
}

fn play(s: State, arrivals: Arrivals, steps: u32) -> State {
    let r = bus::play(s, arrivals, steps);
    stretch::write(&r.reports, r.made, r.taken, r.left);
    r.state
}

// The state after a command, whose answer is written.
pub fn obey(s: State, command: Command) -> State {
    match command {
        Command::SetUp { settings, row } => set_up(settings, row),
        Command::Admit {
            address,
            value,
            length,
        } => admit(s, address, value, length),
        Command::Begin => begin(s),
        Command::Probe => probe(s),
        Command::Step => step(s),
        Command::Play { arrivals, steps } => play(s, arrivals, steps),
        Command::Edit {
            field,
            index,
            value,
        } => edits::edited(s, field, index, value),
        Command::Totals => {
            totals(&bus::closing(s));
            s
        }
        Command::Show => {
            show::state(&s);
            s
        }
    }
}
