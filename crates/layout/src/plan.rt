// What a layout has said so far.
ghost use Rattle.std.specs.Prelude.{◌+◌, ◌*◌, ◌<◌, ◌≤◌, ◌≡◌};
ghost use Rattle.scenario.specs.Reading.{most_bytes};
ghost use Rattle.layout.specs.declared.stages.Stage.TheVariants.{BeforeBus};
ghost use Rattle.layout.specs.Layout.{in_arrivals};
ghost use Rattle.layout.specs.Faults.{stage_number};

use crate::stages::Stage;
use state::{Arrival, Listed, Settings};

// The set-up's numbers, with n the number of stations; the stations; the arrivals, `count` of them, in order of time; the steps. The rows are
// fixed, since nothing is allocated. There is no station before the bus and no arrival before the stations' end, and what has been said fits a
// scenario.
#[derive(Drop)]
pub struct Plan {
    pub stage: Stage,
    pub settings: Settings,
    pub stations: [Listed; 64],
    pub arrivals: [Arrival; 4096],
    pub count: usize,
    pub steps: u32,
    ghost named: { settings.discipline < 3 },
    ghost few: { settings.n ≤ 64 },
    ghost short: { 22 + 8 * settings.n + 16 * count ≤ most_bytes },
    ghost first: { stage ≡ BeforeBus → settings.n ≡ 0 },
    ghost early: { stage_number stage < in_arrivals → count ≡ 0 },
}
