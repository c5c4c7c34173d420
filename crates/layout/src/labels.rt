// The words of a layout: the kinds of lines, the disciplines, and the words before numbers.
ghost use Rattle.std.specs.Prelude.{◌≡◌, map};
ghost use Rattle.rules.specs.Bus.{code};
ghost use Rattle.layout.specs.Layout.{kind_of, discipline_named, station_labels, repeated_label, labels_of, label_bytes};
ghost use Rattle.layout.specs.Faults.{kind_in, kind_number, discipline_in, label_number};

use rules::Discipline;

// The kinds of lines.
#[derive(Clone, Copy, PartialEq, Eq)]
pub enum Kind {
    Bus,
    Station,
    Arrival,
    Arrivals,
    Attempt,
    Run,
}

// The words before numbers.
#[derive(Clone, Copy)]
pub enum Label {
    D,
    A,
    Q,
    Address,
    Capability,
    Time,
    Value,
    Length,
    Every,
    From,
    To,
    Laxity,
    Steps,
}

impl Label {
    // All of them, by their numbers from 1 on.
    pub const ALL: [Label; 13] = [
        Label::D,
        Label::A,
        Label::Q,
        Label::Address,
        Label::Capability,
        Label::Time,
        Label::Value,
        Label::Length,
        Label::Every,
        Label::From,
        Label::To,
        Label::Laxity,
        Label::Steps,
    ];

    // Its number in the table.
    pub fn number(self) -> u32
        ensures { result ≡ label_number self }
    {
        match self {
            Label::D => 1,
            Label::A => 2,
            Label::Q => 3,
            Label::Address => 4,
            Label::Capability => 5,
            Label::Time => 6,
            Label::Value => 7,
            Label::Length => 8,
            Label::Every => 9,
            Label::From => 10,
            Label::To => 11,
            Label::Laxity => 12,
            Label::Steps => 13,
        }
    }

    // Its letters.
    pub fn letters(self) -> &'static [u8]
        ensures { result.now ≡ label_bytes (label_number self) }
    {
        match self {
            Label::D => b"D",
            Label::A => b"A",
            Label::Q => b"q",
            Label::Address => b"address",
            Label::Capability => b"capability",
            Label::Time => b"time",
            Label::Value => b"value",
            Label::Length => b"length",
            Label::Every => b"every",
            Label::From => b"from",
            Label::To => b"to",
            Label::Laxity => b"laxity",
            Label::Steps => b"steps",
        }
    }
}

// The kind of a line by its first word.
pub fn kind_of(word: &[u8]) -> Option<Kind>
    ensures { kind_in result ≡ kind_of word.now }
{
    // a match on the letters was tried: eleven of its goals stay open, a byte pattern each
    if words::same(word, b"bus") {
        Some(Kind::Bus)
    } else if words::same(word, b"station") {
        Some(Kind::Station)
    } else if words::same(word, b"arrival") {
        Some(Kind::Arrival)
    } else if words::same(word, b"arrivals") {
        Some(Kind::Arrivals)
    } else if words::same(word, b"attempt") {
        Some(Kind::Attempt)
    } else if words::same(word, b"run") {
        Some(Kind::Run)
    } else {
        None
    }
}

// The discipline by its name.
pub fn discipline_named(word: &[u8]) -> Option<Discipline>
    ensures { discipline_in result ≡ discipline_named word.now }
{
    if words::same(word, b"PRI") {
        Some(Discipline::PRI)
    } else if words::same(word, b"RTDG") {
        Some(Discipline::RTDG)
    } else if words::same(word, b"RTVC") {
        Some(Discipline::RTVC)
    } else {
        None
    }
}

// 'a station with its address and, in RTVC, its capability'
fn station_labels(discipline: Discipline) -> &'static [Label]
    ensures { map label_number result.now ≡ station_labels (code discipline) }
{
    match discipline {
        Discipline::RTVC => &[Label::Address, Label::Capability],
        Discipline::PRI | Discipline::RTDG => &[Label::Address],
    }
}

// The words of repeated arrivals: a datagram's value is given as slots after its time.
fn repeated_labels(discipline: Discipline) -> &'static [Label]
    ensures { map label_number result.now ≡ labels_of 4 (code discipline) }
{
    match discipline {
        Discipline::RTDG => &[
            Label::Every,
            Label::From,
            Label::To,
            Label::Address,
            Label::Laxity,
            Label::Length,
        ],
        Discipline::PRI | Discipline::RTVC => &[
            Label::Every,
            Label::From,
            Label::To,
            Label::Address,
            Label::Value,
            Label::Length,
        ],
    }
}

// The words of a kind of line under a discipline.
pub fn labels_of(kind: Kind, discipline: Discipline) -> &'static [Label]
    ensures { map label_number result.now ≡ labels_of (kind_number kind) (code discipline) }
{
    match kind {
        Kind::Bus => &[Label::D, Label::A, Label::Q],
        Kind::Station => station_labels(discipline),
        Kind::Arrival | Kind::Attempt => &[
            Label::Time,
            Label::Address,
            Label::Value,
            Label::Length,
        ],
        Kind::Arrivals => repeated_labels(discipline),
        Kind::Run => &[Label::Steps],
    }
}

// The word with this number that stands before a number; none is empty.
pub fn word_of(code: u32) -> &'static [u8]
    ensures { result.now ≡ label_bytes code }
{
    match code {
        1..=13 => Label::ALL[code as usize - 1].letters(),
        _ => &[],
    }
}
