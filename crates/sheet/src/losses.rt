// The highest loss of a batch: 'Losses are compared exactly by cross products; equal ones go to the earlier run.'
ghost use Rattle.std.specs.Prelude.{◌*◌, ◌≡◌};
ghost use Rattle.sheet.specs.Sheet.{placed as placedIn, highest_of};
ghost use Rattle.sheet.specs.Words.{half, word, number, in_halves};
ghost use Rattle.sheet.specs.Parts.{takes_place};

use crate::{Placed, Run};

// A product of losses, exactly, 'also past 64 bits': the number that multiplication in halves makes.
fn product(a: u64, b: u64) -> u128
    ensures value { result ≡ a * b }
    ensures in_halves { result ≡ number word (in_halves half a b) }
{
    u128::from(a) * u128::from(b)
}

// Whether a run takes the place of the highest so far: it has a figure and none had one, or its loss is above.
fn takes_place(highest: Option<Placed>, run: &Placed) -> bool
    ensures { result ≡ takes_place highest run.now }
{
    let Some(highest) = highest else {
        return 0 < run.ended;
    };
    let held = product(highest.lost, run.ended);
    let its = product(run.lost, highest.ended);
    held < its
}

// A run at its place, with its loss: 'lost + turned away over lost + turned away + sent'.
fn placed(place: usize, run: &Run) -> Placed
    ensures { result ≡ placedIn place run.now }
{
    let lost = u64::from(run.lost) + u64::from(run.turned);
    let ended = lost + u64::from(run.sent);
    Placed { place, lost, ended }
}

// 'the run with the highest loss', if one has a figure
pub fn highest(runs: &[Run]) -> Option<Placed>
    ensures { result ≡ highest_of runs.now }
{
    let mut highest = None;
    for (place, run) in runs.iter().enumerate() {
        let placed = placed(place, run);
        if takes_place(highest, &placed) {
            highest = Some(placed);
        }
    }
    highest
}
