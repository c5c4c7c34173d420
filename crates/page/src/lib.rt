// The text of a sheet, in room that the caller lends: a heading, a line for each run, the sums and the highest loss (docs/SHEET.md). Every
// call takes any input.
#![tactic(auto)]

ghost use Rattle.std.specs.Prelude.{◌≡◌, length, ◌≤◌};
ghost use Rattle.text.specs.Room.{room_bytes, room_with};
ghost use Rattle.page.specs.Page.{heading_text, line_text, closing_text, sheet_text};

use sheet::{MOST_RUNS, Placed, Run, Sheet, Sums};
use text::Writer;

mod lines;

// Why a scenario has no row: the number of its refusal, and the offset. A number, because any is written as it is (`refusal_words`).
#[derive(Drop)]
pub struct Refusal {
    pub number: u32,
    pub offset: usize,
}

// What a line of a sheet is of: a finished run, a scenario that was refused, or a file that could not be read.
#[derive(Drop)]
pub enum Entry {
    Run(Run),
    Refused(Refusal),
    Unread,
}

// The heading of a sheet, at the start of the room; how many bytes it has.
pub fn heading(room: &mut [u8; 65536]) -> usize
    ensures value { result ≡ length heading_text }
    ensures room_after { room.new ≡ room_with heading_text room.old }
    ensures length_bound { result ≤ room_bytes }
{
    let mut heading = Writer { room, at: 0 };
    lines::heading(&mut heading);
    heading.at
}

// The line of an entry with its name.
pub fn line(entry: Entry, name: &[u8], room: &mut [u8; 65536]) -> usize
    ensures value { result ≡ length (line_text entry name.now) }
    ensures room_after { room.new ≡ room_with (line_text entry name.now) room.old }
    ensures length_bound { result ≤ room_bytes }
{
    let mut line = Writer { room, at: 0 };
    lines::cells(&mut line, &entry);
    lines::named(&mut line, name);
    line.at
}

// The lines that close a sheet: the sums, and the highest loss with the run's name.
pub fn closing(sums: Sums, highest: Option<Placed>, name: &[u8], room: &mut [u8; 65536]) -> usize
    ensures value { result ≡ length (closing_text sums highest name.now) }
    ensures room_after { room.new ≡ room_with (closing_text sums highest name.now) room.old }
    ensures length_bound { result ≤ room_bytes }
{
    let mut closing = Writer { room, at: 0 };
    lines::sums(&mut closing, sums);
    lines::highest(&mut closing, highest, name);
    closing.at
}

// The whole text of a sheet, with places for names. A count above 256 counts as 256.
pub fn write(sheet: Sheet, room: &mut [u8; 65536]) -> usize
    ensures value { result ≡ length (sheet_text sheet) }
    ensures room_after { room.new ≡ room_with (sheet_text sheet) room.old }
    ensures length_bound { result ≤ room_bytes }
{
    let mut whole = Writer { room, at: 0 };
    lines::heading(&mut whole);
    lines::rows(&mut whole, &sheet.rows[..sheet.count.min(MOST_RUNS)]);
    lines::sums(&mut whole, sheet.sums);
    lines::highest_placed(&mut whole, sheet.highest);
    whole.at
}
