// The listing: a run is played turn by turn, and each turn puts its text into room that the caller lends. Every call takes any input and
// any play.
#![tactic(auto)]

ghost use Rattle.std.specs.Prelude.{◌*◌, ◌≤◌, ◌≡◌, drop, false, length};
ghost use Rattle.bus.specs.Coded.{totals_of};
ghost use Rattle.text.specs.Room.{room_bytes, room_with};
ghost use Rattle.text.specs.Parts.{Wrote};
ghost use Rattle.listing.specs.Turns.{next_arrivals, arrivals_form, report_text, reports_text, opened, stretched, closed_by, turn, turn_form};
ghost use Rattle.scenario.specs.Format.{read_record};
ghost use Rattle.listing.specs.Parts.{TurnTold, arrival_if};

use bus::{Arrivals, Report};
use rules::Slot;
use scenario::{ARRIVAL_BYTES, Record};
use sorts::Address;
use state::{Arrival, State, zeros};
use text::Writer;

mod telling;

// The arrivals that a stretch is given at the most.
const MOST_ARRIVALS: usize = 64;

// A run that is played: the state, the offset of the record that is next in the input, the steps that are left, and whether it goes on. Any play
// may be lent, and one that is over with steps left is handed back as it was, so that these two are no Option.
#[derive(Clone, Copy)]
pub struct Play {
    pub state: State,
    pub at: usize,
    pub steps: u32,
    pub going: bool,
}

// What a turn hands out: how many bytes of text it has put at the start of the room, and the run as it goes on.
#[derive(Clone, Copy)]
pub struct Turn {
    pub length: usize,
    pub play: Play,
}

// A run that is over.
fn over(state: State) -> Play
    ensures { result ≡ record { state = state; at = 0; steps = 0; going = false } }
{
    Play {
        state,
        at: 0,
        steps: 0,
        going: false,
    }
}

// The first turn: the scenario is read. 'A refused scenario prints only REFUSED number offset.'
pub fn open(input: &[u8], room: &mut [u8; 65536]) -> Turn
    ensures value { result ≡ turn_form (opened input.now) }
    ensures room_after { room.new ≡ room_with (opened input.now).text room.old }
    ensures length_bound { result.length ≤ room_bytes }
{
    match scenario::read(input) {
        Ok(s) => {
            let play = Play {
                state: s.state,
                at: s.at,
                steps: s.steps,
                going: true,
            };
            Turn { length: 0, play }
        }
        Err(e) => {
            let mut out = Writer { room, at: 0 };
            telling::refused(&mut out, u32::from(e.refusal), e.offset);
            Turn {
                length: out.at,
                play: over(state::all_zero()),
            }
        }
    }
}

// The arrival at an offset of the input, if the record there is one.
fn arrival_at(input: &[u8], at: usize) -> Option<Arrival>
    ensures { result ≡ arrival_if (read_record (drop at input.now)) }
{
    match scenario::record_at(input, at) {
        Ok(Record::Arrival(arrival)) => Some(arrival),
        _ => None,
    }
}

// The arrivals that come next in the input, from an offset on: up to the first record that is none, 64 at the most. The place that is filled is
// the length where the row ends.
pub fn gather(input: &[u8], from: usize) -> Arrivals
    ensures { result ≡ arrivals_form (next_arrivals input.now from) }
{
    let mut row = [zeros::NO_ARRIVAL; 64];
    let mut at = from;
    for length in 0..MOST_ARRIVALS {
        let Some(arrival) = arrival_at(input, at) else {
            return Arrivals { row, length };
        };
        row[length] = arrival;
        at += ARRIVAL_BYTES;
    }
    Arrivals {
        row,
        length: MOST_ARRIVALS,
    }
}

// The text of a report.
fn tell(out: &mut Writer, report: &Report)
    ensures { Wrote out.old out.new (report_text report.now) 128 }
{
    match report {
        Report::Step { answer, .. } => telling::answer(out, answer),
        Report::Arrival {
            clock,
            address,
            admitted,
        } => {
            if admitted.refusal != 0 {
                telling::arrival(out, *clock, *address, admitted.refusal);
            }
        }
    }
}

// The text of reports, one after the other.
fn tell_all(out: &mut Writer, reports: &[Report])
    ensures { Wrote out.old out.new (reports_text reports.now) (128 * length reports.now) }
{
    for report in reports {
        tell(out, report);
    }
}

// The run ends with its last line.
fn close(state: State, room: &mut [u8; 65536]) -> Turn
    ensures { TurnTold room.old room.new result (closed_by state (totals_of state)) }
{
    let totals = bus::closing(state);
    let mut out = Writer { room, at: 0 };
    telling::ending(&mut out, &totals);
    Turn {
        length: out.at,
        play: over(state),
    }
}

// A stretch of the run.
fn go_on(input: &[u8], play: Play, room: &mut [u8; 65536]) -> Turn
    ensures { TurnTold room.old room.new result (stretched input.now play) }
{
    let at = play.at;
    let arrivals = gather(input, at);
    let stretch = bus::play(play.state, arrivals, play.steps);
    let mut out = Writer { room, at: 0 };
    tell_all(&mut out, &stretch.reports[..stretch.made]);
    let next = Play {
        state: stretch.state,
        at: at + ARRIVAL_BYTES * stretch.taken,
        steps: stretch.left,
        going: true,
    };
    Turn {
        length: out.at,
        play: next,
    }
}

// Any other turn: 'Before each step it admits, in file order, the arrivals whose time is not above the clock', up to 512 calls to a turn;
// or, where no step is left, the run ends. A run that is over hands out nothing.
pub fn next(input: &[u8], play: Play, room: &mut [u8; 65536]) -> Turn
    ensures value { result ≡ turn_form (turn input.now play) }
    ensures room_after { room.new ≡ room_with (turn input.now play).text room.old }
    ensures length_bound { result.length ≤ room_bytes }
{
    if !play.going {
        return Turn { length: 0, play };
    }
    if play.steps == 0 {
        return close(play.state, room);
    }
    go_on(input, play, room)
}
