// What the three disciplines hold a packet to: its value, its latest start and its length.
ghost use Rattle.std.specs.Prelude.{◌≡◌};
ghost use Rattle.rules.specs.Bus.{late};
ghost use Rattle.rules.specs.SetUp.{discipline_of};
ghost use Rattle.rules.specs.Standing.{value_is_fit, length_fits};

use rules::{Discipline, Slot};

// The disciplines by the numbers that a set-up gives. Any number may come: refusal 2 is the answer to one that names none, and `late` and
// `value_fits` go by `discipline_of`, which takes them all.
pub const PRI: u32 = 0;

pub const RTDG: u32 = 1;

pub const RTVC: u32 = 2;

// 'clock: slots 0 to 1,073,741,824'
pub const CLOCK_END: u32 = 1_073_741_824;

// 'packet length: 1 to 4,096 slots'
const LONGEST_PACKET: u32 = 4_096;

// Whether a value is a latest start below a slot.
pub fn late(discipline: u32, slot: Slot, value: u32) -> bool
    ensures { result ≡ late (discipline_of discipline) slot.0 value }
{
    match Discipline::from(discipline) {
        Discipline::RTDG => Slot(value) < slot,
        Discipline::PRI | Discipline::RTVC => false,
    }
}

// 'for PRI, a priority 0 to D - 1; for RTDG, the latest slot in which the packet may start; for RTVC, 0'
pub fn value_fits(discipline: u32, d: u32, value: u32) -> bool
    ensures { result ≡ value_is_fit (discipline_of discipline) d value }
{
    match Discipline::from(discipline) {
        Discipline::PRI => value < d,
        Discipline::RTDG => value <= CLOCK_END,
        Discipline::RTVC => value == 0,
    }
}

// Whether a packet's length is in its range.
pub fn length_fits(length: u32) -> bool
    ensures { result ≡ length_fits length }
{
    (1..=LONGEST_PACKET).contains(&length)
}
