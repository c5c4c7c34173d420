// A stretch of a run: arrivals and steps, one call after the other.
ghost use Rattle.std.specs.Prelude.{◌+◌, ◌≡◌, true, false, ◌&&◌, leb, ltb};
ghost use Rattle.bus.specs.Stretch.{most_calls, row_places, stretch_of, stretch_form};
ghost use Rattle.state.specs.State.{Held, standing};
ghost use Rattle.bus.specs.Parts.{addresses_of, stepped_to};
ghost use Rattle.bus.specs.Coded.{coded_step, step_result};

use crate::{Answer, Arrivals, Report, Stretch, beginning, joining, probing};
use rules::Slot;
use state::State;

// The calls that a stretch has at the most, and the arrivals of its row.
const MOST_CALLS: usize = 512;

const ROW: usize = 64;

// A place of the reports that none fills.
const NO_REPORT: Report = Report::Step {
    clock: Slot(0),
    answer: crate::NO_ANSWER,
};

// Whether a stretch goes on: there is room for a report, a place of the row that has not been passed, and a step left.
fn goes_on(made: usize, taken: usize, left: u32) -> bool
    ensures { result ≡ (ltb made most_calls && ltb taken row_places && ltb 0 left) }
{
    made < MOST_CALLS && taken < ROW && 0 < left
}

// Whether an arrival comes next, at this place of a row of this length, and its time is not above the clock.
fn is_due(taken: usize, length: usize, time: Slot, clock: Slot) -> bool
    ensures { result ≡ (ltb taken length && leb time.0 clock.0) }
{
    taken < length && time <= clock
}

// A step of a state: 'a step tries 1, then 17', begins a contention if none is under way, and probes one slot. `Held` and `standing` are asked by
// each of the calls in place: a State is exported and may hold anything, and a type of those that stand would hold its 64 KB once more.
pub fn step_in(s: &mut State, stands: bool, addresses: &[u64; 64]) -> Answer
    requires held { Held s.old }
    requires stands { stands ≡ standing s.old }
    requires addresses { addresses.now ≡ addresses_of s.old.segment.listed }
    ensures stepped { stepped_to result s.new ≡ step_result (coded_step s.old) }
    ensures listed { s.new.segment.listed ≡ s.old.segment.listed }
{
    if let Err(refusal) = crate::may_step(stands, s.segment.clock) {
        return crate::refused(u32::from(refusal));
    }
    let mut drops = 0;
    let under_way = s.segment.contention;
    if !under_way.begun {
        drops = beginning::begin_in(s);
    }
    probing::probe_in(s, drops, addresses)
}

// The calls of a stretch. A state that does not stand comes back as lent, and each call is refused; one that stands stands after each
// call. Three counts end it, of which a call moves two, and all three are part of what comes back.
pub fn calls(mut s: State, stands: bool, arrivals: Arrivals, steps: u32) -> Stretch
    requires { stands ≡ standing s }
    ensures { result ≡ stretch_form (stretch_of s arrivals steps) }
{
    let addresses = probing::addresses_of(s.segment.listed);
    let mut reports = [NO_REPORT; 512];
    let mut made = 0;
    let mut taken = 0;
    let mut left = steps;
    while goes_on(made, taken, left) {
        let a = arrivals.row[taken];
        let clock = s.segment.clock;
        if is_due(taken, arrivals.length, a.time, clock) {
            let admitted = joining::admit_in(&mut s, stands, a.address, a.value, a.length);
            reports[made] = Report::Arrival {
                clock,
                address: a.address,
                admitted,
            };
            taken += 1;
        } else {
            let answer = step_in(&mut s, stands, &addresses);
            reports[made] = Report::Step { clock, answer };
            left -= 1;
        }
        made += 1;
    }
    Stretch {
        reports,
        made,
        taken,
        state: s,
        left,
    }
}
