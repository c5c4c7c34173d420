// The commands of a script.
ghost use Rattle.std.specs.Prelude.{◌<◌, ◌≤◌, length};
ghost use Rattle.std.specs.Option.{IsSome};

use crate::script::Script;
use bus::Arrivals;
use rules::Slot;
use sorts::{Address, Capability};
use state::{Arrival, Listed, Row, Settings, zeros};

// A command, by its letter, with its numbers.
#[derive(Clone, Copy)]
pub enum Command {
    SetUp {
        settings: Settings,
        row: Row,
    },
    Admit {
        address: Address,
        value: u32,
        length: u32,
    },
    Begin,
    Probe,
    Step,
    Play {
        arrivals: Arrivals,
        steps: u32,
    },
    Totals,
    Edit {
        field: u64,
        index: u64,
        value: u64,
    },
    Show,
}

// How many of the 64 places are named: 'k above 64 counts as 64'.
fn places(k: u64) -> usize
    ensures { result ≤ 64 }
{
    k.min(64) as usize
}

// 'discipline* D* A* q* n length k, then k pairs': 'the pairs stand in its first places, the others are zero'. A length above 64 is lent as
// it is.
fn set_up(script: &mut Script) -> Command
    ensures { length script.new.rest.now ≤ length script.old.rest.now }
{
    let settings = Settings {
        discipline: script.low(),
        d: script.low(),
        a: script.low(),
        q: script.low(),
        n: script.number() as usize,
    };
    let length = script.number() as usize;
    let named = places(script.number());
    let mut stations = [zeros::NOBODY; 64];
    for station in &mut stations[..named] {
        *station = Listed {
            address: Address(script.low()),
            capability: Capability(script.low()),
        };
    }
    let row = Row { stations, length };
    Command::SetUp { settings, row }
}

// 'steps* length k, then k fours': 'the fours stand in its first places, the others are zero'. A length above 64 is lent as it is.
fn play(script: &mut Script) -> Command
    ensures { length script.new.rest.now ≤ length script.old.rest.now }
{
    let steps = script.low();
    let length = script.number() as usize;
    let named = places(script.number());
    let mut row = [zeros::NO_ARRIVAL; 64];
    for arrival in &mut row[..named] {
        *arrival = Arrival {
            time: Slot(script.low()),
            address: Address(script.low()),
            value: script.low(),
            length: script.low(),
        };
    }
    let arrivals = Arrivals { row, length };
    Command::Play { arrivals, steps }
}

// The next command: 'Between commands every byte is passed over until a command's letter', and 'after a letter come that command's numbers'.
pub fn next(script: &mut Script) -> Option<Command>
    ensures { IsSome result → length script.new.rest.now < length script.old.rest.now }
{
    while let Some(letter) = script.byte() {
        match letter {
            b'U' => return Some(set_up(script)),
            b'A' => {
                return Some(Command::Admit {
                    address: Address(script.low()),
                    value: script.low(),
                    length: script.low(),
                });
            }
            b'B' => return Some(Command::Begin),
            b'O' => return Some(Command::Probe),
            b'S' => return Some(Command::Step),
            b'R' => return Some(play(script)),
            b'T' => return Some(Command::Totals),
            b'E' => {
                return Some(Command::Edit {
                    field: script.number(),
                    index: script.number(),
                    value: script.number(),
                });
            }
            b'P' => return Some(Command::Show),
            b'#' => script.pass_line(),
            _ => {}
        }
    }
    None
}
