// The scenario reader: the bytes of a scenario to the run that they ask for, or the number and the offset of what refuses them.
// Every call takes any bytes.
#![tactic(auto)]

ghost use Rattle.std.specs.Prelude.{◌≤◌, ◌≡◌, drop};
ghost use Rattle.state.specs.SetUp.{settings_refusal};
ghost use Rattle.rules.specs.Refusals.{answered, number_of};
ghost use Rattle.scenario.specs.Format.{read_record, said, out_of_place};
ghost use Rattle.scenario.specs.Reading.{reading, by_number, scenario_form, read_stations, set_up_bytes, station_offset, stations_from};
ghost use Rattle.scenario.specs.Parts.{station_said, station_from, stations_said, stations_form, ending_form, run_at, ending_at, after_passed};

use rules::{Refusal, Slot};
use state::{Arrival, Listed, Row, Settings, State, zeros};

mod fields;
mod records;

// '22: scenario above 65,536 bytes'
const MOST_BYTES: usize = 65_536;

// The bytes that a record takes: the two of its length, and what follows them.
const SET_UP_BYTES: usize = 16;

const STATION_BYTES: usize = 8;

pub const ARRIVAL_BYTES: usize = 16;

const RUN_BYTES: usize = 6;

// What a record is: its body by its kind.
#[derive(Clone, Copy)]
pub enum Record {
    SetUp(Settings),
    Station(Listed),
    Arrival(Arrival),
    Run(u32),
}

// A scenario as read: the state set up, the offset of the first arrival's record, and the steps of the run.
#[derive(Clone, Copy)]
pub struct Scenario {
    pub state: State,
    pub at: usize,
    pub steps: u32,
}

// What refuses a scenario, and the offset of what is refused.
#[derive(Clone, Copy, PartialEq, Eq)]
pub struct Refused {
    pub refusal: Refusal,
    pub offset: usize,
}

// The record at an offset of the input.
pub fn record_at(input: &[u8], at: usize) -> Result<Record, Refusal>
    ensures { said result ≡ read_record (drop at input.now) }
{
    let rest = input.get(at..).ok_or(Refusal::CutShort)?;
    records::read_record(rest)
}

// What refuses a record that is not of the kind that has its place here: its own refusal, or '20: record out of place'.
fn out_of_place(found: Result<Record, Refusal>) -> Refusal
    ensures { number_of result ≡ out_of_place (said found) }
{
    match found {
        Ok(_) => Refusal::OutOfPlace,
        Err(refusal) => refusal,
    }
}

// The offset of the record of the station at a place of the row.
fn station_offset(place: usize) -> usize
    requires { place ≤ 64 }
    ensures { result ≡ station_offset place }
{
    SET_UP_BYTES + STATION_BYTES * place
}

// The station whose record has its place at an offset.
fn station_at(input: &[u8], at: usize) -> Result<Listed, Refused>
    ensures { station_said result ≡ station_from (read_record (drop at input.now)) at }
{
    let found = record_at(input, at);
    let Ok(Record::Station(listed)) = found else {
        return Err(Refused {
            refusal: out_of_place(found),
            offset: at,
        });
    };
    Ok(listed)
}

// 'N stations', n of them.
fn read_stations(input: &[u8], n: usize) -> Result<Row, Refused>
    requires { n ≤ 64 }
    ensures { stations_said result ≡ stations_form (stations_from n set_up_bytes (drop set_up_bytes input.now)) }
{
    let mut stations = [zeros::NOBODY; 64];
    for (i, place) in stations[..n].iter_mut().enumerate() {
        *place = station_at(input, station_offset(i))?;
    }
    Ok(Row {
        stations,
        length: n,
    })
}

// 'any arrivals', from an offset on; '21: arrival time below the previous arrival's'. The offset of the record that comes next.
fn pass_arrivals(input: &[u8], from: usize) -> Result<usize, Refused>
    ensures { ending_form (ending_at input.now from) ≡ after_passed input.now (by_number result) }
{
    let mut at = from;
    let mut previous = Slot(0);
    while let Ok(Record::Arrival(arrival)) = record_at(input, at) {
        if arrival.time < previous {
            return Err(Refused {
                refusal: Refusal::TimeBefore,
                offset: at,
            });
        }
        previous = arrival.time;
        at += ARRIVAL_BYTES;
    }
    Ok(at)
}

// 'one run', and no 'bytes after the run record'; its steps.
fn read_run(input: &[u8], at: usize) -> Result<u32, Refused>
    ensures { by_number result ≡ ending_form (run_at input.now at) }
{
    let found = record_at(input, at);
    let Ok(Record::Run(steps)) = found else {
        return Err(Refused {
            refusal: out_of_place(found),
            offset: at,
        });
    };
    let after = at + RUN_BYTES;
    if after < input.len() {
        return Err(Refused {
            refusal: Refusal::OutOfPlace,
            offset: after,
        });
    }
    Ok(steps)
}

// 'any arrivals, one run', from an offset on; the steps.
fn read_ending(input: &[u8], from: usize) -> Result<u32, Refused>
    ensures { by_number result ≡ ending_form (ending_at input.now from) }
{
    read_run(input, pass_arrivals(input, from)?)
}

// The outcome of a set-up by the number in its answer, as `Verdict` of the rules has it.
fn outcome(number: u32) -> Result<(), Refusal>
    requires { number ≤ 10 }
    ensures { answered result ≡ number }
{
    match number {
        0 => Ok(()),
        1 => Err(Refusal::Standing),
        2 => Err(Refusal::Discipline),
        3 => Err(Refusal::ParameterSpace),
        4 => Err(Refusal::AddressSpace),
        5 => Err(Refusal::LaxityStep),
        6 => Err(Refusal::StationCount),
        7 => Err(Refusal::AddressRange),
        8 => Err(Refusal::AddressTaken),
        9 => Err(Refusal::CapabilityRange),
        _ => Err(Refusal::CapabilityTaken),
    }
}

// The rest of a scenario with these settings.
fn read_listed(input: &[u8], settings: Settings) -> Result<Scenario, Refused>
    requires { settings_refusal settings ≡ 0 }
    ensures { by_number result ≡ scenario_form (read_stations settings (stations_from settings.n set_up_bytes (drop set_up_bytes input.now)) input.now) }
{
    let row = read_stations(input, settings.n)?;
    let set = state::set_up(settings, row);
    let verdict = set.verdict;
    if let Err(refusal) = outcome(verdict.refusal) {
        let offset = station_offset(verdict.station);
        return Err(Refused { refusal, offset });
    }
    let at = station_offset(settings.n);
    let steps = read_ending(input, at)?;
    Ok(Scenario {
        state: set.state,
        at,
        steps,
    })
}

// The scenario in the input: 'one set-up, N stations, any arrivals, one run'.
pub fn read(input: &[u8]) -> Result<Scenario, Refused>
    ensures { by_number result ≡ scenario_form (reading input.now) }
{
    if MOST_BYTES < input.len() {
        return Err(Refused {
            refusal: Refusal::TooLong,
            offset: 0,
        });
    }
    let found = record_at(input, 0);
    let Ok(Record::SetUp(settings)) = found else {
        return Err(Refused {
            refusal: out_of_place(found),
            offset: 0,
        });
    };
    if let Err(refusal) = outcome(state::settings_refusal(settings)) {
        return Err(Refused { refusal, offset: 0 });
    }
    read_listed(input, settings)
}
