// The state of a bus segment: what it is made of, the set-up that it comes from, and the conditions that it stands by (`standing::stands`).
// Every exported function takes any input.
#![tactic(auto)]

ghost use Rattle.std.specs.Prelude.{◌≡◌};
ghost use Rattle.rules.specs.Bus.{nothing};
ghost use Rattle.state.specs.State.{form};
ghost use Rattle.state.specs.SetUp.{settings_refusal, coded_set_up, set_up_result, request_of};

use rules::{Packet, Refusal, Slot, Verdict};
use sorts::{Address, Capability};
use window::Window;

mod numbers;
pub mod standing;
mod stations;
pub mod zeros;

// The numbers of a set-up: discipline 0 PRI, 1 RTDG, 2 RTVC; parameter space d, address space a, laxity step q, n stations. They may be any,
// the discipline too: `settings_tests` refuses it with 2, and `padded` tests it in a lent state.
#[derive(Clone, Copy)]
pub struct Settings {
    pub discipline: u32,
    pub d: u32,
    pub a: u32,
    pub q: u32,
    pub n: usize,
}

// A station as it is listed in the set-up.
#[derive(Clone, Copy, PartialEq, Eq)]
pub struct Listed {
    pub address: Address,
    pub capability: Capability,
}

// The row of stations that a set-up is given: the first `length` of the places; there are no more than 64. It is lent whole, with any length,
// as `request_of` reads it: nothing here allocates.
#[derive(Clone, Copy)]
pub struct Row {
    pub stations: [Listed; 64],
    pub length: usize,
}

// A station's place among the contenders: whether it contends, and then its parameter and packet, else zeros. A lent state may have any
// numbers where none contends, which `contender_padded` tests: so no Option.
#[derive(Clone, Copy, PartialEq, Eq)]
pub struct Contender {
    pub contends: bool,
    pub parameter: u64,
    pub packet: Packet,
}

// The contention, if one is under way: its window, and in the tie phase the tie value. What has no meaning is zero, which `contention_padded`
// tests of a lent state: so no Options.
#[derive(Clone, Copy, PartialEq, Eq)]
pub struct Contention {
    pub begun: bool,
    pub window: Window,
    pub tied: bool,
    pub tie: u64,
}

// The RTVC round: whether a circuit has won in it, and the last winner's capability, or 0, which `round_padded` tests of a lent state: so no
// Option.
#[derive(Clone, Copy, PartialEq, Eq)]
pub struct Round {
    pub won: bool,
    pub last: Capability,
}

// All of the state but the queues: what a probe reads and writes. Stations stand in listed order. The counts are packets admitted, sent, lost
// and turned away. The contenders are a word, 'station i in listed order at bit i', and what each has beside its bit, in rows of plain
// numbers: its parameter, and the number, value, length and admission slot of its packet. `place_in` reads one, and a probe all parameters
// one behind another.
#[derive(Clone, Copy)]
pub struct Segment {
    pub settings: Settings,
    pub listed: [Listed; 64],
    pub clock: Slot,
    pub admitted: u64,
    pub sent: u64,
    pub lost: u64,
    pub turned: u64,
    pub round: Round,
    pub contention: Contention,
    pub contenders: u64,
    pub parameters: [u64; 64],
    pub numbers: [u32; 64],
    pub values: [u32; 64],
    pub lengths: [u32; 64],
    pub admissions: [Slot; 64],
}

// The queues: how many packets each station has, and '16 packets a station, so 1,024 places in all'. Station i owns the sixteen
// places from 16 × i on. A lent state may have any lengths, and packets past them, which `queue_padded` tests.
#[derive(Clone, Copy)]
pub struct Queues {
    pub lengths: [usize; 64],
    pub packets: [Packet; 1024],
}

// The state, which goes in by value and comes back by value.
#[derive(Clone, Copy)]
pub struct State {
    pub segment: Segment,
    pub queues: Queues,
}

// A set-up's answer, and the state, which a refused one has too: `set_up_result`.
#[derive(Clone, Copy)]
pub struct SetUp {
    pub verdict: Verdict,
    pub state: State,
}

// An arrival: an admission that is asked for once the clock has come to its time.
#[derive(Clone, Copy)]
pub struct Arrival {
    pub time: Slot,
    pub address: Address,
    pub value: u32,
    pub length: u32,
}

// What is at fault in a set-up: the refusal, and for 7 to 10 the place in the row of the station, else 0.
#[derive(Clone, Copy)]
struct Fault {
    refusal: Refusal,
    station: usize,
}

impl From<Refusal> for Fault {
    ghost from_gives = { λ refusal fault. fault ≡ record { refusal = refusal; station = 0 } };

    fn from(refusal: Refusal) -> Fault {
        Fault {
            refusal,
            station: 0,
        }
    }
}

// No set-up.
const NO_SETTINGS: Settings = Settings {
    discipline: 0,
    d: 0,
    a: 0,
    q: 0,
    n: 0,
};

// 'an all-zero state', 'which refusal 1 catches'
pub fn all_zero() -> State
    ensures { result ≡ form nothing }
{
    stations::fresh(NO_SETTINGS, [zeros::NOBODY; 64])
}

// 2 to 6 of a set-up's numbers, before its stations are known; 0 for none.
pub fn settings_refusal(settings: Settings) -> u32
    ensures { result ≡ settings_refusal settings }
{
    rules::answered(&stations::settings_verdict(&settings, stations::MOST_STATIONS))
}

// 'Set-up tries 2 to 6, then the stations in turn, each 7 to 10. A refused set-up hands back its number and an all-zero state.'
pub fn set_up(settings: Settings, row: Row) -> SetUp
    ensures { result ≡ set_up_result (coded_set_up (request_of settings row)) }
{
    let filled = &row.stations[..row.length.min(64)];
    match stations::verdict(&settings, filled) {
        Ok(()) => SetUp {
            verdict: Verdict {
                refusal: 0,
                station: 0,
            },
            state: stations::fresh(settings, stations::up_to(&filled[..settings.n])),
        },
        Err(fault) => SetUp {
            verdict: Verdict {
                refusal: u32::from(fault.refusal),
                station: fault.station,
            },
            state: all_zero(),
        },
    }
}
