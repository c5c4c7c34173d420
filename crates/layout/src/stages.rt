// The stages of a layout, and the lines that may come at each.
ghost use Rattle.std.specs.Prelude.{◌≡◌, ◌||◌, eqb, IfOk, Some};
ghost use Rattle.layout.specs.Layout.{is_arrival, run_line, stations_place, place_fault};
ghost use Rattle.layout.specs.Faults.{kind_in, stage_number, fault_in};

use crate::faults::Fault;
use crate::labels::Kind;
use rules::Refusal;

#[derive(Clone, Copy, PartialEq, Eq)]
pub enum Stage {
    BeforeBus,
    InStations,
    InArrivals,
    AfterRun,
}

// Whether a line comes after the stations: an arrival of any of the three sorts, or the run.
fn comes_later(kind: Option<Kind>) -> bool
    ensures { result ≡ (is_arrival (kind_in kind) || eqb (kind_in kind) run_line) }
{
    matches!(
        kind,
        Some(Kind::Arrival | Kind::Arrivals | Kind::Attempt | Kind::Run)
    )
}

// Whether a line of this kind may come in the stations, after n of them.
fn station_place(n: usize, kind: Option<Kind>) -> Result<(), Fault>
    ensures { fault_in result ≡ stations_place n (kind_in kind) }
{
    match kind {
        Some(Kind::Station) => Ok(()),
        Some(Kind::Arrival | Kind::Arrivals | Kind::Attempt | Kind::Run) => if n == 0 {
            Err(Fault::Engine(Refusal::StationCount))
        } else {
            Ok(())
        },
        Some(Kind::Bus) | None => Err(if n == 0 {
            Fault::NoStation
        } else {
            Fault::NoRecord
        }),
    }
}

// Whether a line of this kind may come at a stage, after n stations.
pub fn place(stage: Stage, n: usize, kind: Option<Kind>) -> Result<(), Fault>
    ensures { fault_in result ≡ place_fault (stage_number stage) n (kind_in kind) }
{
    match stage {
        Stage::BeforeBus => match kind {
            Some(Kind::Bus) => Ok(()),
            _ => Err(Fault::NoBus),
        },
        Stage::InStations => station_place(n, kind),
        Stage::InArrivals => if comes_later(kind) {
            Ok(())
        } else {
            Err(Fault::NoArrivalLine)
        },
        Stage::AfterRun => Err(Fault::PastRun),
    }
}
