// The engine: the calls on the state of a bus segment. Every call takes any input; bad input gets its number from the table of paper 01,
// and the state comes back as lent, but for the count of packets turned away where an admission is refused with 14 or 15.
#![tactic(auto)]

ghost use Rattle.std.specs.Prelude.{◌≡◌, cond, ltb};
ghost use Rattle.rules.specs.Bus.{last_slot};
ghost use Rattle.rules.specs.Refusals.{answered};
ghost use Rattle.rules.specs.Probe.{refused_answer};
ghost use Rattle.rules.specs.Step.{refused_begun};
ghost use Rattle.bus.specs.Stretch.{stretch_of, stretch_form};
ghost use Rattle.bus.specs.Coded.{phase_number, event_number, coded_admit, coded_begin, coded_probe, coded_step, admission_result, begin_result, step_result, arrival_of, begun_form, answer_form, totals_of};

use rules::{Admitted, Packet, Refusal, Slot};
use sorts::Address;
use state::{Arrival, Contention, Round, State, standing};

mod beginning;
mod joining;
mod offering;
mod playing;
mod probing;
mod waiting;

// 'step with the clock above 1,073,737,728'; a probe too.
const LAST_SLOT: u32 = 1_073_737_728;

// The answer to no step and no probe.
const NO_ANSWER: Answer = Answer {
    refusal: 0,
    drops: 0,
    slot: Slot(0),
    phase: Phase::Parameter,
    start: 0,
    size: 0,
    event: Event::Idle,
    address: Address(0),
    number: 0,
    length: 0,
    wait: 0,
    ended: false,
};

// An admission's answer, and the state.
#[derive(Clone, Copy)]
pub struct Admission {
    pub answer: Admitted,
    pub state: State,
}

// A begin's answer: the drops, the slot, the first window's start and size; the word of contenders, and by station the contender's address, its
// packet's number and its parameter. What has no meaning is zero. The refusal is a number, 0 for none, and no Result, here and in `Answer` and
// `Totals`: `begin_result`, `step_result` and `totals_of`, and `HandsBack` of the rules' demands, are about that number and the zeros beside it.
#[derive(Clone, Copy)]
pub struct Begun {
    pub refusal: u32,
    pub drops: u64,
    pub slot: Slot,
    pub start: u64,
    pub size: u64,
    pub contenders: u64,
    pub addresses: [Address; 64],
    pub numbers: [u32; 64],
    pub parameters: [u64; 64],
}

// A begin's answer, and the state.
#[derive(Clone, Copy)]
pub struct Started {
    pub answer: Begun,
    pub state: State,
}

// The phase of a contention: the parameter phase, or the tie phase.
#[derive(Clone, Copy, PartialEq, Eq)]
pub enum Phase {
    Parameter,
    Tie,
}

// 0 the parameter phase, 1 the tie phase.
impl From<Phase> for u32 {
    ghost from_gives = { λ phase number. number ≡ phase_number phase };

    fn from(phase: Phase) -> u32 {
        match phase {
            Phase::Parameter => 0,
            Phase::Tie => 1,
        }
    }
}

// What is heard in a slot.
#[derive(Clone, Copy, PartialEq, Eq)]
pub enum Event {
    Idle,
    Collision,
    Success,
}

// 0 idle, 1 collision, 2 success.
impl From<Event> for u32 {
    ghost from_gives = { λ event number. number ≡ event_number event };

    fn from(event: Event) -> u32 {
        match event {
            Event::Idle => 0,
            Event::Collision => 1,
            Event::Success => 2,
        }
    }
}

// The answer to a step or a probe; the drops of a probe are 0. The address, the packet's number, its length and its wait, the number of slots
// from its admission slot to the slot probed, are 0 unless one succeeded. A refused one has its number, and zero in the other fields: the
// parameter phase and idle.
#[derive(Clone, Copy)]
pub struct Answer {
    pub refusal: u32,
    pub drops: u64,
    pub slot: Slot,
    pub phase: Phase,
    pub start: u64,
    pub size: u64,
    pub event: Event,
    pub address: Address,
    pub number: u32,
    pub length: u32,
    pub wait: u32,
    pub ended: bool,
}

// The answer to a step or a probe, and the state.
#[derive(Clone, Copy)]
pub struct Stepped {
    pub answer: Answer,
    pub state: State,
}

// The arrivals that come next in a run: the first `length` of the places; a length above 64 counts as 64. Where all are filled there
// may be more. An array with its length, as the function that takes it is exported and `stretch_of` has it; nothing here allocates.
#[derive(Clone, Copy)]
pub struct Arrivals {
    pub row: [Arrival; 64],
    pub length: usize,
}

// What is said of a call in a stretch: of an arrival the clock, its address and the answer to its admission; of a step the clock and
// its answer.
#[derive(Clone, Copy)]
pub enum Report {
    Step {
        clock: Slot,
        answer: Answer,
    },
    Arrival {
        clock: Slot,
        address: Address,
        admitted: Admitted,
    },
}

// A stretch of a run: the reports of the calls made, and past them that of no step; how many arrivals have been taken, the state, and how
// many steps are left. The state lies before the shorter number: after that and its padding the compiled code would hold it twice as it is handed back.
#[derive(Clone, Copy)]
pub struct Stretch {
    pub reports: [Report; 512],
    pub made: usize,
    pub taken: usize,
    pub state: State,
    pub left: u32,
}

// What a listing closes with, the packets turned away last; the refusal number, or 0, and zeros where refused.
#[derive(Clone, Copy)]
pub struct Totals {
    pub refusal: u32,
    pub clock: Slot,
    pub admitted: u64,
    pub sent: u64,
    pub lost: u64,
    pub waiting: u64,
    pub turned: u64,
}

// The types of the private functions: several modules name them, and a type and a function whose names differ in case alone cannot stand in
// one module.

// Which packets leave a queue: in a discipline, those whose latest start is below a slot; or the one with a number. A value, so that the contract
// of `close_up` names those that stay; of a closure it would ask that it be callable, and what it answers, at each packet: no plainer. The
// discipline is its number, which the public `disciplines::late` takes.
#[derive(Clone, Copy)]
enum Leaving {
    Late(u32, Slot),
    Sent(u32),
}

// What a probe moves.
#[derive(Clone, Copy)]
struct Progress {
    pub clock: Slot,
    pub sent: u64,
    pub round: Round,
    pub contention: Contention,
}

// A probe's answer, and what it has moved.
#[derive(Clone, Copy)]
struct Moved {
    pub answer: Answer,
    pub progress: Progress,
}

// 'Admission tries 1, then 11 to 16'; an accepted packet takes the first free place of its station's queue, and one that is refused with 14 or
// 15 is counted.
pub fn admit(mut s: State, address: Address, value: u32, length: u32) -> Admission
    ensures { result ≡ admission_result (coded_admit s (arrival_of address value length)) }
{
    let stands = standing::stands(s);
    let answer = joining::admit_in(&mut s, stands, address, value, length);
    Admission { answer, state: s }
}

// '25, begin while one is under way; .. after 1'
fn may_begin(stands: bool, begun: bool) -> Result<(), Refusal>
    ensures { answered result ≡ cond stands (cond begun 25 0) 1 }
{
    if !stands {
        return Err(Refusal::Standing);
    }
    if begun {
        return Err(Refusal::UnderWay);
    }
    Ok(())
}

// The answer to a refused begin: 'zero in the answer's other fields'.
fn unbegun(refusal: u32) -> Begun
    ensures { result ≡ begun_form (refused_begun refusal) }
{
    Begun {
        refusal,
        drops: 0,
        slot: Slot(0),
        start: 0,
        size: 0,
        contenders: 0,
        addresses: [Address(0); 64],
        numbers: [0; 64],
        parameters: [0; 64],
    }
}

// 'who contends and what was dropped before the first slot is spent': late packets leave, each station offers one packet, and parameters and the
// first window are fixed. It takes no slot, and is accepted at any clock of a state that stands and has no contention under way.
pub fn begin(mut s: State) -> Started
    ensures { result ≡ begin_result (coded_begin s) }
{
    let stands = standing::stands(s);
    let under_way = s.segment.contention;
    let answer = match may_begin(stands, under_way.begun) {
        Ok(()) => {
            let drops = beginning::begin_in(&mut s);
            beginning::shown(&s.segment, drops)
        }
        Err(refusal) => unbegun(u32::from(refusal)),
    };
    Started { answer, state: s }
}

// '26, probe while none is; .. after 1, and 26 before 17, which belongs to the probe'
fn may_probe(stands: bool, begun: bool, clock: Slot) -> Result<(), Refusal>
    ensures { answered result ≡ cond stands (cond begun (cond (ltb last_slot clock.0) 17 0) 26) 1 }
{
    if !stands {
        return Err(Refusal::Standing);
    }
    if !begun {
        return Err(Refusal::NoneUnderWay);
    }
    if Slot(LAST_SLOT) < clock {
        return Err(Refusal::ClockEnd);
    }
    Ok(())
}

// Probes one slot of the contention under way: who transmits, what is heard, and what becomes of the window and the state.
pub fn probe(mut s: State) -> Stepped
    ensures { result ≡ step_result (coded_probe s) }
{
    let stands = standing::stands(s);
    let under_way = s.segment.contention;
    let answer = match may_probe(stands, under_way.begun, s.segment.clock) {
        Ok(()) => {
            let addresses = probing::addresses_of(s.segment.listed);
            probing::probe_in(&mut s, 0, &addresses)
        }
        Err(refusal) => refused(u32::from(refusal)),
    };
    Stepped { answer, state: s }
}

// 'a step tries 1, then 17'
fn may_step(stands: bool, clock: Slot) -> Result<(), Refusal>
    ensures { answered result ≡ cond stands (cond (ltb last_slot clock.0) 17 0) 1 }
{
    if !stands {
        return Err(Refusal::Standing);
    }
    if Slot(LAST_SLOT) < clock {
        return Err(Refusal::ClockEnd);
    }
    Ok(())
}

// The answer to a refused step or probe: 'zero in the answer's other fields'.
fn refused(refusal: u32) -> Answer
    ensures { result ≡ answer_form (refused_answer refusal) }
{
    let mut answer = NO_ANSWER;
    answer.refusal = refusal;
    answer
}

// A step is the two in one: it begins a contention if none is under way, and probes one slot; its answer is the probe's with the begin's drops.
// 'a step tries 1, then 17', before it begins anything.
pub fn step(mut s: State) -> Stepped
    ensures { result ≡ step_result (coded_step s) }
{
    let stands = standing::stands(s);
    let addresses = probing::addresses_of(s.segment.listed);
    let answer = playing::step_in(&mut s, stands, &addresses);
    Stepped { answer, state: s }
}

// Up to 512 calls, one after the other: 'Before each step it admits, in file order, the arrivals whose time is not above the clock.' It
// ends before that where no step is left, or where all of a full row of arrivals have been taken. Each call's answer, and the state, are
// those of `admit` and `step`.
pub fn play(s: State, arrivals: Arrivals, steps: u32) -> Stretch
    ensures { result ≡ stretch_form (stretch_of s arrivals steps) }
{
    playing::calls(s, standing::stands(s), arrivals, steps)
}

// 'END clock admitted sent lost waiting' and the packets turned away, of a state that stands; 1 of any other.
pub fn closing(s: State) -> Totals
    ensures { result ≡ totals_of s }
{
    if !standing::stands(s) {
        return Totals {
            refusal: 1,
            clock: Slot(0),
            admitted: 0,
            sent: 0,
            lost: 0,
            waiting: 0,
            turned: 0,
        };
    }
    let g = s.segment;
    let settings = g.settings;
    let queues = s.queues;
    let lengths = queues.lengths;
    let waiting = standing::waiting_in(lengths, settings.n) as u64;
    let clock = g.clock;
    Totals {
        refusal: 0,
        clock,
        admitted: g.admitted,
        sent: g.sent,
        lost: g.lost,
        waiting,
        turned: g.turned,
    }
}
