// A record, taken from the rest of the lent input: 'a two-byte length (of what follows it), a two-byte kind, a body'.
ghost use Rattle.std.specs.Prelude.{◌≡◌};
ghost use Rattle.scenario.specs.Format.{read_record, said, said_by, set_up_kind, station_kind, arrival_kind, run_kind, kinds, row_of};
ghost use Rattle.scenario.specs.Parts.{row, row_if};

use crate::{Record, fields};
use rules::{Refusal, Slot};
use sorts::{Address, Capability};
use state::{Arrival, Listed, Settings};

// The bytes before the body: length and kind.
const HEADER: usize = 4;

// The kinds of records.
#[derive(Clone, Copy)]
enum Kind {
    SetUp,
    Station,
    Arrival,
    Run,
}

// The kind with this number, if there is one and this is its length.
fn kind_of(kind: u32, length: u32) -> Option<Kind>
    ensures { row_if result ≡ row_of kind length kinds }
{
    match (kind, length) {
        (1, 14) => Some(Kind::SetUp),
        (2, 6) => Some(Kind::Station),
        (3, 14) => Some(Kind::Arrival),
        (4, 4) => Some(Kind::Run),
        _ => None,
    }
}

// 'discipline 1, D 4, A 4, q 2, N 1'
fn set_up_in(body: &[u8]) -> Settings
    ensures { said (Ok (Record.SetUp result)) ≡ said_by set_up_kind body.now }
{
    Settings {
        discipline: fields::one(body, 0),
        d: fields::four(body, 1),
        a: fields::four(body, 5),
        q: fields::two(body, 9),
        n: fields::one(body, 11) as usize,
    }
}

// 'address 2, capability 2'
fn station_in(body: &[u8]) -> Listed
    ensures { said (Ok (Record.Station result)) ≡ said_by station_kind body.now }
{
    Listed {
        address: Address(fields::two(body, 0)),
        capability: Capability(fields::two(body, 2)),
    }
}

// 'time 4, address 2, value 4, packet length 2'
fn arrival_in(body: &[u8]) -> Arrival
    ensures { said (Ok (Record.Arrival result)) ≡ said_by arrival_kind body.now }
{
    Arrival {
        time: Slot(fields::four(body, 0)),
        address: Address(fields::two(body, 4)),
        value: fields::four(body, 6),
        length: fields::two(body, 10),
    }
}

// 'steps 2'
fn run_in(body: &[u8]) -> u32
    ensures { said (Ok (Record.Run result)) ≡ said_by run_kind body.now }
{
    fields::two(body, 0)
}

// The body of a record by its kind.
fn body_in(kind: Kind, body: &[u8]) -> Record
    ensures { said (Ok result) ≡ said_by (row kind) body.now }
{
    match kind {
        Kind::SetUp => Record::SetUp(set_up_in(body)),
        Kind::Station => Record::Station(station_in(body)),
        Kind::Arrival => Record::Arrival(arrival_in(body)),
        Kind::Run => Record::Run(run_in(body)),
    }
}

// The record at the beginning of the rest of the input: '18 if under four bytes remain, 19, 18 for a short body'.
pub fn read_record(rest: &[u8]) -> Result<Record, Refusal>
    ensures { said result ≡ read_record rest.now }
{
    if rest.len() < HEADER {
        return Err(Refusal::CutShort);
    }
    let length = fields::two(rest, 0);
    let kind = kind_of(fields::two(rest, 2), length).ok_or(Refusal::UnknownKind)?;
    let body = rest
        .get(HEADER..2 + length as usize)
        .ok_or(Refusal::CutShort)?;
    Ok(body_in(kind, body))
}
