// A run measured: a scenario's bytes to its finished run, or to the number and the offset of what refuses it. It plays the stretches that
// busrun plays, and takes any input.
#![tactic(auto)]

ghost use Rattle.std.specs.Prelude.{◌≤◌, ◌≡◌, take};
ghost use Rattle.scenario.specs.Reading.{by_number};
ghost use Rattle.listing.specs.Turns.{answers_in};
ghost use Rattle.measure.specs.Measured.{longer, longest_wait, measured};
ghost use Rattle.measure.specs.Parts.{wait_told, Finishes};

use bus::{Event, Report, Stretch};
use scenario::{ARRIVAL_BYTES, Refused};
use sheet::Run;
use state::State;

// The wait that a report tells: that of a success, and 0 of anything else.
fn wait_told(report: Report) -> u32
    ensures { result ≡ wait_told report }
{
    match report {
        Report::Step { answer, .. } if answer.event == Event::Success => answer.wait,
        _ => 0,
    }
}

// The longer of two waits, under the name that the definitions have for it.
#[tactic(auto, using(crate::proofs::Waits::max_longer))]
fn longer(first: u32, second: u32) -> u32
    ensures { result ≡ longer first second }
{
    first.max(second)
}

// The longest wait, of one and of those that reports tell.
fn longest_in(reports: &[Report], before: u32) -> u32
    ensures { result ≡ longer before (longest_wait (answers_in reports.now)) }
{
    reports.iter().fold(
        before,
        |longest, report| longer(longest, wait_told(*report)),
    )
}

// The run from a state on, by the arrivals that stand in the input from an offset on and the steps that are left: a stretch of calls a turn. That
// the counts have 32 bits is proved (`totals_fit` of proofs/Finishing).
fn played(input: &[u8], from: State, first: usize, most: u32) -> Run
    ensures { Finishes input.now from first most 0 result }
{
    let mut state = from;
    let mut at = first;
    let mut steps = most;
    let mut longest = 0;
    while 0 < steps {
        let arrivals = listing::gather(input, at);
        let stretch = bus::play(state, arrivals, steps);
        longest = longest_in(&stretch.reports[..stretch.made], longest);
        at += ARRIVAL_BYTES * stretch.taken;
        steps = stretch.left;
        state = stretch.state;
    }
    let totals = bus::closing(state);
    Run {
        admitted: totals.admitted as u32,
        sent: totals.sent as u32,
        lost: totals.lost as u32,
        waiting: totals.waiting as u32,
        turned: totals.turned as u32,
        wait: longest,
    }
}

// The finished run of a scenario, or what refuses it.
pub fn measure(input: &[u8]) -> Result<Run, Refused>
    ensures { by_number result ≡ measured input.now }
{
    let s = scenario::read(input)?;
    Ok(played(input, s.state, s.at, s.steps))
}
