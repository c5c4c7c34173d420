// The lines of a sheet, put together from what a writer stores.
ghost use Rattle.std.specs.Prelude.{suc, ◌≤◌, min, ◌≡◌, [], length, None};
ghost use Rattle.text.specs.Text.{decimal};
ghost use Rattle.text.specs.Parts.{Wrote};
ghost use Rattle.sheet.specs.Sheet.{most_runs};
ghost use Rattle.page.specs.Page.{aligned, column as columnText, all_places, counts_text, named as namedText, heading_text, run_cells, refusal_words, cells as cellsText, sums_text, loss_text, highest_text, rows_text, name_of};

use crate::{Entry, Refusal};
use sheet::{MOST_RUNS, Placed, Run, Sums};
use text::Writer;

// The places of a count, of the packets turned away, of the longest wait, and of all columns; the bytes of a name.
const COUNT: usize = 10;

const TURNED: usize = 11;

const WAIT: usize = 12;

const ALL: usize = 69;

const NAME: usize = 4096;

// A space, and a number right-aligned in so many places.
fn column(out: &mut Writer, places: usize, n: u64)
    requires { places ≤ 20 }
    ensures { Wrote out.old out.new (columnText places (decimal n)) 21 }
{
    out.put(b' ');
    out.spaces(places.saturating_sub(text::digits_of(n)));
    out.number(n);
}

// Four counts, and the packets turned away.
fn counts(out: &mut Writer, counts: Sums)
    ensures { Wrote out.old out.new (counts_text (decimal counts.admitted) (decimal counts.sent) (decimal counts.lost) (decimal counts.waiting) (decimal counts.turned)) 105 }
{
    column(out, COUNT, counts.admitted);
    column(out, COUNT, counts.sent);
    column(out, COUNT, counts.lost);
    column(out, COUNT, counts.waiting);
    column(out, TURNED, counts.turned);
}

// A run's columns.
fn run_cells(out: &mut Writer, run: Run)
    ensures { Wrote out.old out.new (run_cells run) 126 }
{
    let five = Sums {
        admitted: u64::from(run.admitted),
        sent: u64::from(run.sent),
        lost: u64::from(run.lost),
        waiting: u64::from(run.waiting),
        turned: u64::from(run.turned),
    };
    counts(out, five);
    column(out, WAIT, u64::from(run.wait));
}

// 'REFUSED number offset'
fn refused(out: &mut Writer, refusal: &Refusal)
    ensures { Wrote out.old out.new (refusal_words refusal.now.number refusal.now.offset) 39 }
{
    out.letters(b"REFUSED ");
    out.number(u64::from(refusal.number));
    out.put(b' ');
    out.number(refusal.offset as u64);
}

// The same right-aligned in the columns' places.
fn refused_cells(out: &mut Writer, refusal: &Refusal)
    ensures { Wrote out.old out.new (aligned all_places (refusal_words refusal.now.number refusal.now.offset)) 126 }
{
    let number = text::digits_of(u64::from(refusal.number));
    let offset = text::digits_of(refusal.offset as u64);
    out.spaces(ALL.saturating_sub(9 + number + offset));
    refused(out, refusal);
}

// What stands in the columns of an entry.
pub fn cells(out: &mut Writer, entry: &Entry)
    ensures { Wrote out.old out.new (cellsText entry.now) 126 }
{
    match entry {
        Entry::Run(run) => run_cells(out, *run),
        Entry::Refused(refusal) => refused_cells(out, refusal),
        Entry::Unread => out.letters(
            b"                                                           UNREADABLE",
        ),
    }
}

// Two spaces, the run's name as far as it is shown, and the line's end.
pub fn named(out: &mut Writer, name: &[u8])
    ensures { Wrote out.old out.new (namedText name.now) 4099 }
{
    out.spaces(2);
    out.letters(&name[..NAME.min(name.len())]);
    out.put(b'\n');
}

// The same where the name is a number, which is written in its place: a name's bytes would need room of their own first.
fn numbered(out: &mut Writer, n: u64)
    ensures { Wrote out.old out.new (namedText (decimal n)) 23 }
{
    out.spaces(2);
    out.number(n);
    out.put(b'\n');
}

// The words over the columns.
pub fn heading(out: &mut Writer)
    ensures { Wrote out.old out.new heading_text 75 }
{
    out.letters(b"   admitted       sent       lost    waiting turned away longest wait  run\n");
}

// The line of the sums.
pub fn sums(out: &mut Writer, sums: Sums)
    ensures { Wrote out.old out.new (sums_text sums) 129 }
{
    counts(out, sums);
    out.letters(b"               all runs\n");
}

// 'highest loss lost/ended', before the name
fn loss(out: &mut Writer, lost: u64, ended: u64)
    ensures { Wrote out.old out.new (loss_text lost ended) 54 }
{
    out.letters(b"highest loss ");
    out.number(lost);
    out.put(b'/');
    out.number(ended);
}

// 'If none has a figure, the sheet says so'
fn no_figure(out: &mut Writer)
    ensures { Wrote out.old out.new (highest_text None []) 34 }
{
    out.letters(b"highest loss: no run has a figure\n");
}

// The line of the highest loss, with the run's name.
pub fn highest(out: &mut Writer, highest: Option<Placed>, name: &[u8])
    ensures { Wrote out.old out.new (highest_text highest name.now) 4153 }
{
    match highest {
        None => no_figure(out),
        Some(p) => {
            loss(out, p.lost, p.ended);
            named(out, name);
        }
    }
}

// A place counted from 1; one past the 256th counts as that.
fn counted(place: usize) -> u64
    ensures { result ≡ min (suc place) most_runs }
{
    place.min(MOST_RUNS - 1) as u64 + 1
}

// The line of the highest loss, with the run's place for a name; a closure for what comes last would be longer than the two arms.
pub fn highest_placed(out: &mut Writer, highest: Option<Placed>)
    ensures { Wrote out.old out.new (highest_text highest (name_of highest)) 77 }
{
    match highest {
        None => no_figure(out),
        Some(p) => {
            loss(out, p.lost, p.ended);
            numbered(out, counted(p.place));
        }
    }
}

// The lines of runs, each with its place, counted from 1, for a name.
pub fn rows(out: &mut Writer, runs: &[Run])
    requires { length runs.now ≤ most_runs }
    ensures { Wrote out.old out.new (rows_text 0 runs.now) 38144 }
{
    for (place, run) in runs.iter().enumerate() {
        run_cells(out, *run);
        numbered(out, counted(place));
    }
}
