// What the rules and the code that is proved to follow them have in common. The rules themselves are definitions, in specs/.
#![tactic(auto)]

ghost use Rattle.std.specs.Prelude.{◌≡◌};
ghost use Rattle.rules.specs.SetUp.{discipline_of};
ghost use Rattle.rules.specs.Refusals.{number_of, answered};

// 'by priority', 'by laxity', 'by virtual circuit'
#[derive(Clone, Copy, PartialEq, Eq)]
pub enum Discipline {
    PRI,
    RTDG,
    RTVC,
}

// '0 PRI, 1 RTDG, 2 RTVC'; past 2, which set-up refuses, any.
impl From<u32> for Discipline {
    ghost from_gives = { λ number discipline. discipline ≡ discipline_of number };

    fn from(number: u32) -> Discipline {
        match number {
            0 => Discipline::PRI,
            1 => Discipline::RTDG,
            _ => Discipline::RTVC,
        }
    }
}

// What refuses a call, as the table of refusal numbers has it.
#[derive(Clone, Copy, PartialEq, Eq)]
pub enum Refusal {
    Standing,
    Discipline,
    ParameterSpace,
    AddressSpace,
    LaxityStep,
    StationCount,
    AddressRange,
    AddressTaken,
    CapabilityRange,
    CapabilityTaken,
    NoStation,
    ValueRange,
    LengthRange,
    Late,
    Filled,
    AllNumbered,
    ClockEnd,
    CutShort,
    UnknownKind,
    OutOfPlace,
    TimeBefore,
    TooLong,
    UnderWay,
    NoneUnderWay,
}

// The number of each in the table.
impl From<Refusal> for u32 {
    ghost from_gives = { λ refusal number. number ≡ number_of refusal };

    fn from(refusal: Refusal) -> u32 {
        match refusal {
            Refusal::Standing => 1,
            Refusal::Discipline => 2,
            Refusal::ParameterSpace => 3,
            Refusal::AddressSpace => 4,
            Refusal::LaxityStep => 5,
            Refusal::StationCount => 6,
            Refusal::AddressRange => 7,
            Refusal::AddressTaken => 8,
            Refusal::CapabilityRange => 9,
            Refusal::CapabilityTaken => 10,
            Refusal::NoStation => 11,
            Refusal::ValueRange => 12,
            Refusal::LengthRange => 13,
            Refusal::Late => 14,
            Refusal::Filled => 15,
            Refusal::AllNumbered => 16,
            Refusal::ClockEnd => 17,
            Refusal::CutShort => 18,
            Refusal::UnknownKind => 19,
            Refusal::OutOfPlace => 20,
            Refusal::TimeBefore => 21,
            Refusal::TooLong => 22,
            Refusal::UnderWay => 25,
            Refusal::NoneUnderWay => 26,
        }
    }
}

// The number in the answer to a call with this outcome: that of its refusal, or 0.
pub fn answered<T>(outcome: &Result<T, Refusal>) -> u32
    ensures { result ≡ answered outcome.now }
{
    match outcome {
        Ok(_) => 0,
        Err(refusal) => u32::from(*refusal),
    }
}

// A slot, the one of the three sorts that a packet holds; addresses and capabilities, and what is compared besides, are in the crate sorts.
#[derive(Clone, Copy, PartialEq, Eq, PartialOrd, Ord)]
pub struct Slot(pub u32);

// A packet that waits: its value is a priority (PRI), the latest slot in which it may start (RTDG), or 0 (RTVC); its admission slot is the
// clock at its admission.
#[derive(Clone, Copy, PartialEq, Eq)]
pub struct Packet {
    pub number: u32,
    pub value: u32,
    pub length: u32,
    pub admission: Slot,
}

// The answer to a set-up: the refusal number, or 0; for 7 to 10 the faulty station's place in the row, counted from 0, else 0. The rules'
// `set_up` answers it, and the theorems about set-ups are about its number.
#[derive(Clone, Copy)]
pub struct Verdict {
    pub refusal: u32,
    pub station: usize,
}

// The answer to an admission: the refusal number, or 0; 'the number is the answer', and 0 where refused. The rules' `admit` answers it, and
// the theorems about replies are about its number.
#[derive(Clone, Copy)]
pub struct Admitted {
    pub refusal: u32,
    pub number: u32,
}
