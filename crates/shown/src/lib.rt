// A scenario as lines of a layout, in room that the caller lends: the record at an offset of the input, shown as a line, and where the next
// one is (docs/LAYOUT.md, 'A scenario shown'). Every call takes any input.
#![tactic(auto)]

ghost use Rattle.std.specs.Prelude.{◌≤◌, ◌≡◌, drop};
ghost use Rattle.text.specs.Room.{room_bytes, room_with};
ghost use Rattle.scenario.specs.Format.{read_record};
ghost use Rattle.shown.specs.Shown.{line_of, shown_at, shown_form};
ghost use Rattle.shown.specs.Parts.{LineWrote};

use scenario::{ARRIVAL_BYTES, Record};
use state::Settings;
use text::Writer;

mod lines;

// The bytes of a set-up's record and of a station's.
const SET_UP_BYTES: usize = 16;

const STATION_BYTES: usize = 8;

// What is shown of a record: how many bytes its line has, at the start of the room, and the offset of the next record; none comes after the
// run, nor after what is refused, which has no line.
#[derive(Clone, Copy)]
pub struct Shown {
    pub length: usize,
    pub next: Option<usize>,
}

// Stores the line of the record at an offset of an input whose set-up has these numbers; the offset of the next record. After the run, which is
// the last, and after a record that is refused comes none.
fn line(out: &mut Writer, input: &[u8], at: usize, settings: Settings) -> Option<usize>
    ensures { LineWrote out.old out.new result (line_of settings at (read_record (drop at input.now))) }
{
    let Ok(found) = scenario::record_at(input, at) else {
        return None;
    };
    match found {
        Record::SetUp(own) => {
            lines::bus(out, own);
            Some(at + SET_UP_BYTES)
        },
        Record::Station(station) => {
            lines::station(out, settings, station);
            Some(at + STATION_BYTES)
        },
        Record::Arrival(arrival) => {
            lines::arrival(out, settings, arrival);
            Some(at + ARRIVAL_BYTES)
        },
        Record::Run(steps) => {
            lines::run(out, steps);
            None
        },
    }
}

// The record at an offset of the input, by the set-up that is its first record: nothing where one of the two is refused or the first is
// another record.
pub fn show(input: &[u8], at: usize, room: &mut [u8; 65536]) -> Shown
    ensures value { result ≡ shown_form (shown_at input.now at) }
    ensures room_after { room.new ≡ room_with (shown_at input.now at).text room.old }
    ensures length_le_room_bytes { result.length ≤ room_bytes }
{
    let Ok(Record::SetUp(settings)) = scenario::record_at(input, 0) else {
        return Shown {
            length: 0,
            next: None,
        };
    };
    let mut out = Writer { room, at: 0 };
    let next = line(&mut out, input, at, settings);
    Shown {
        length: out.at,
        next,
    }
}
