// The runs of a batch, one after the other: whether each balances, its row, and the sums.
ghost use Rattle.std.specs.Prelude.{◌-◌, ◌≤◌, ◌≡◌, ◌++◌, length, map, replicate};
ghost use Rattle.sheet.specs.Sheet.{balances as balancesIn, unbalanced as unbalancedIn, row_of, sums_of, no_run, most_runs};

use crate::{Run, Sums};

// 'a run whose admitted count is not sent + lost + waiting' does not; added up in 64 bits, which 32 bits cannot pass. A packet turned away was
// not admitted.
fn balances(run: &Run) -> bool
    ensures { result ≡ balancesIn run.now }
{
    u64::from(run.admitted) == u64::from(run.sent) + u64::from(run.lost) + u64::from(run.waiting)
}

// The place of the first run that does not balance.
pub fn unbalanced(runs: &[Run]) -> Option<usize>
    ensures { result ≡ unbalancedIn runs.now }
{
    runs.iter().position(|run| !balances(run))
}

// The row of a run: 'the longest wait (0 if none was sent)'.
fn row(run: &Run) -> Run
    ensures { result ≡ row_of run.now }
{
    let wait = if run.sent == 0 { 0 } else { run.wait };
    Run { wait, ..*run }
}

// The rows of the runs, and zeros past them.
pub fn all(runs: &[Run]) -> [Run; 256]
    requires { length runs.now ≤ most_runs }
    ensures { result ≡ map row_of runs.now ++ replicate (most_runs - length runs.now) no_run }
{
    let mut rows = [crate::NO_RUN; 256];
    for (i, run) in runs.iter().enumerate() {
        rows[i] = row(run);
    }
    rows
}

// 'the .. counts' sums', with that of the packets turned away; 256 numbers of 32 bits do not pass 64.
pub fn sums(runs: &[Run]) -> Sums
    requires { length runs.now ≤ most_runs }
    ensures { result ≡ sums_of runs.now }
{
    Sums {
        admitted: runs.iter().map(|run| u64::from(run.admitted)).sum(),
        sent: runs.iter().map(|run| u64::from(run.sent)).sum(),
        lost: runs.iter().map(|run| u64::from(run.lost)).sum(),
        waiting: runs.iter().map(|run| u64::from(run.waiting)).sum(),
        turned: runs.iter().map(|run| u64::from(run.turned)).sum(),
    }
}
