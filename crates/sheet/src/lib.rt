// The sheet of a batch of finished runs: a row for each run, the counts' sums and the run with the highest loss. Every call takes any input.
#![tactic(auto)]

ghost use Rattle.std.specs.Prelude.{◌≡◌};
ghost use Rattle.sheet.specs.Sheet.{number_of, place_of, drawn};

mod losses;
mod rows;

// '23, over 256 runs'
pub const MOST_RUNS: usize = 256;

// A finished run: the packets admitted, sent, lost and waiting, those turned away, and the longest wait of a packet that was sent.
#[derive(Clone, Copy)]
pub struct Run {
    pub admitted: u32,
    pub sent: u32,
    pub lost: u32,
    pub waiting: u32,
    pub turned: u32,
    pub wait: u32,
}

// 'over all, the .. counts' sums', that of the packets turned away among them
#[derive(Clone, Copy)]
pub struct Sums {
    pub admitted: u64,
    pub sent: u64,
    pub lost: u64,
    pub waiting: u64,
    pub turned: u64,
}

// A run's place in the batch, counted from 0, and its loss as two whole numbers: the packets lost or turned away, and those lost, turned away
// or sent.
#[derive(Clone, Copy)]
pub struct Placed {
    pub place: usize,
    pub lost: u64,
    pub ended: u64,
}

// The rows of the runs, zeros past them (nothing here allocates, so that the rows stand in a sheet with their count beside them); what is said
// over all; 'the run with the highest loss', if one has a figure.
#[derive(Drop)]
pub struct Sheet {
    pub rows: [Run; 256],
    pub count: usize,
    pub sums: Sums,
    pub highest: Option<Placed>,
}

// What refuses a batch: over 256 runs; the run at this place, the first that does not balance.
#[derive(Clone, Copy, PartialEq, Eq)]
pub enum Refused {
    TooMany,
    Unbalanced(usize),
}

// The number of each in the table.
impl From<Refused> for u32 {
    ghost from_gives = { λ refused number. number ≡ number_of refused };

    fn from(refused: Refused) -> u32 {
        match refused {
            Refused::TooMany => 23,
            Refused::Unbalanced(_) => 24,
        }
    }
}

impl Refused {
    // The place that is said with it: that of the run which does not balance, and 0 where there are too many.
    pub fn place(self) -> usize
        ensures { result ≡ place_of self }
    {
        match self {
            Refused::TooMany => 0,
            Refused::Unbalanced(place) => place,
        }
    }
}

// No run.
pub const NO_RUN: Run = Run {
    admitted: 0,
    sent: 0,
    lost: 0,
    waiting: 0,
    turned: 0,
    wait: 0,
};

// The sheet of the first so many runs of a row: exported, so that the count may be any. '23, over 256 runs; 24, a run whose admitted count is not
// sent + lost + waiting; 23 first.'
pub fn draw(runs: [Run; 256], count: usize) -> Result<Sheet, Refused>
    ensures { result ≡ drawn runs count }
{
    if MOST_RUNS < count {
        return Err(Refused::TooMany);
    }
    let runs = &runs[..count];
    if let Some(place) = rows::unbalanced(runs) {
        return Err(Refused::Unbalanced(place));
    }
    Ok(Sheet {
        rows: rows::all(runs),
        count,
        sums: rows::sums(runs),
        highest: losses::highest(runs),
    })
}
