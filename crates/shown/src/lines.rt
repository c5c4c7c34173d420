// The line of each record, stored by a writer: each function says of how many bytes its text is at the most.
ghost use Rattle.std.specs.Prelude.{◌≤◌, ◌<◌, ◌≡◌, [], ◌∷◌, ◌++◌, length};
ghost use Rattle.text.specs.Text.{decimal};
ghost use Rattle.text.specs.Parts.{Wrote};
ghost use Rattle.rules.specs.SetUp.{discipline_of};
ghost use Rattle.state.specs.SetUp.{asked_of};
ghost use Rattle.layout.specs.Layout.{address_label};
ghost use Rattle.words.specs.Words.{hex_digit};
ghost use Rattle.shown.specs.Shown.{discipline_name, fields_text, fits_ranges, arrival_word, bus_text, station_text, arrival_text, run_text};
ghost use Rattle.shown.specs.Parts.{most_line};

use rules::Discipline;
use sorts::disciplines;
use state::{Arrival, Listed, Settings};
use text::Writer;

// Words, and a number in decimal after them.
fn field(out: &mut Writer, words: &[u8], n: u32)
    requires { length words.now ≤ 12 }
    ensures { Wrote out.old out.new (words.now ++ decimal n) 22 }
{
    out.letters(words);
    out.number(u64::from(n));
}

// A digit, capital where it is a letter.
fn digit(d: u32) -> u8
    requires { d < 16 }
    ensures { result ≡ hex_digit d }
{
    if d < 10 { b'0' + d as u8 } else { 55 + d as u8 }
}

// The word before an address, and the address as a label.
fn address(out: &mut Writer, n: u32)
    ensures { Wrote out.old out.new (fields_text (address_label ∷ []) (n ∷ [])) 15 }
{
    out.letters(b" address 0x");
    out.put(digit(n / 4_096 % 16));
    out.put(digit(n / 256 % 16));
    out.put(digit(n / 16 % 16));
    out.put(digit(n % 16));
}

// The name of a discipline.
fn name_of(discipline: Discipline) -> &'static [u8]
    ensures value { result.now ≡ discipline_name discipline }
    ensures upper_bound { length result.now ≤ 4 }
{
    match discipline {
        Discipline::PRI => b"PRI",
        Discipline::RTDG => b"RTDG",
        Discipline::RTVC => b"RTVC",
    }
}

// The line of a set-up.
pub fn bus(out: &mut Writer, settings: Settings)
    ensures { Wrote out.old out.new (bus_text settings) most_line }
{
    out.letters(b"bus ");
    out.letters(name_of(Discipline::from(settings.discipline)));
    field(out, b" D ", settings.d);
    field(out, b" A ", settings.a);
    field(out, b" q ", settings.q);
    out.put(b'\n');
}

// The line of a station: its capability in RTVC alone.
pub fn station(out: &mut Writer, settings: Settings, station: Listed)
    ensures { Wrote out.old out.new (station_text settings (asked_of station)) most_line }
{
    out.letters(b"station");
    address(out, station.address.0);
    if settings.discipline == disciplines::RTVC {
        field(out, b" capability ", station.capability.0);
        out.put(b'\n');
        return;
    }
    out.put(b'\n');
}

// Whether an arrival's value and length are in their ranges.
fn fits(settings: Settings, arrival: Arrival) -> bool
    ensures { result ≡ fits_ranges settings arrival }
{
    disciplines::value_fits(settings.discipline, settings.d, arrival.value)
        && disciplines::length_fits(arrival.length)
}

// The word that the line of an arrival begins with.
fn arrival_word(fits: bool) -> &'static [u8]
    ensures value { result.now ≡ arrival_word fits }
    ensures upper_bound { length result.now ≤ 7 }
{
    if fits { b"arrival" } else { b"attempt" }
}

// The line of an arrival.
pub fn arrival(out: &mut Writer, settings: Settings, arrival: Arrival)
    ensures { Wrote out.old out.new (arrival_text settings arrival) most_line }
{
    out.letters(arrival_word(fits(settings, arrival)));
    field(out, b" time ", arrival.time.0);
    address(out, arrival.address.0);
    field(out, b" value ", arrival.value);
    field(out, b" length ", arrival.length);
    out.put(b'\n');
}

// The line of the run.
pub fn run(out: &mut Writer, steps: u32)
    ensures { Wrote out.old out.new (run_text steps) most_line }
{
    field(out, b"run steps ", steps);
    out.put(b'\n');
}
