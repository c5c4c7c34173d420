// The faults of a layout (docs/LAYOUT.md).
ghost use Rattle.std.specs.Prelude.{◌≡◌};
ghost use Rattle.layout.specs.Faults.{fault_number, fault_in};

use crate::labels::Label;
use rules::Refusal;
use std::num::NonZeroU32;

// What is wrong with a line: what set-up refuses it for, by its number; what the engine would refuse an arrival for; or what a layout is held to
// besides.
#[derive(Clone, Copy)]
pub enum Fault {
    SetUp(NonZeroU32),
    Engine(Refusal),
    WordMissing(Label),
    NumberMissing(Label),
    GoesOn,
    NoBus,
    NoStation,
    NoRecord,
    NoArrivalLine,
    PastRun,
    AddressLarge,
    LengthLarge,
    StepsLarge,
    EveryZero,
    ToEarly,
}

// The number of each.
impl From<Fault> for u32 {
    ghost from_gives = { λ fault number. number ≡ fault_number fault };

    fn from(fault: Fault) -> u32 {
        match fault {
            Fault::SetUp(refusal) => refusal.get(),
            Fault::Engine(refusal) => u32::from(refusal),
            Fault::WordMissing(label) => 100 + label.number(),
            Fault::NumberMissing(label) => 200 + label.number(),
            Fault::GoesOn => 300,
            Fault::NoBus => 301,
            Fault::NoStation => 302,
            Fault::NoRecord => 303,
            Fault::NoArrivalLine => 304,
            Fault::PastRun => 305,
            Fault::AddressLarge => 306,
            Fault::LengthLarge => 307,
            Fault::StepsLarge => 308,
            Fault::EveryZero => 309,
            Fault::ToEarly => 310,
        }
    }
}

// What set-up's answer is: a fault, unless it is 0.
pub fn unless_refused(refusal: u32) -> Result<(), Fault>
    ensures { fault_in result ≡ refusal }
{
    match NonZeroU32::new(refusal) {
        None => Ok(()),
        Some(refusal) => Err(Fault::SetUp(refusal)),
    }
}
