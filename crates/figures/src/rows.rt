// The figures of every row from the buckets of the pass: one sweep over the rows with running sums.
ghost use Rattle.std.specs.Prelude.{◌≡◌, ℕ, ◌≤◌, ◌<◌, ◌^◌, cond, eqb, length, take};
ghost use Rattle.model.specs.Costs.{swap_cost};
ghost use Rattle.model.specs.Sheets.{run_of, most_steps, most_segs, most_rows};
ghost use Rattle.buckets.specs.Buckets.{bucket_count};
ghost use Rattle.model.specs.RowAnswers.{run_figures};
ghost use Rattle.figures.specs.inner.Sweep.{summed, start_swaps, with_start, no_row_figures, Tallied};
ghost use Rattle.figures.specs.inner.OneRow.{most_items, Holds};

use crate::row_sums::Sums;
use buckets::{Bucket, Tally};
use model::{Amount, Kind, LoadUnits, MemoryUnits, PriceRow, RowFigures, Sheet};

// All 65 buckets added.
fn add_up(buckets: &[Bucket; Tally::BUCKETS]) -> Bucket
    requires { (n : ℕ) → n ≤ bucket_count → Holds most_steps (summed buckets.now n) }
    ensures { result ≡ summed buckets.now bucket_count }
{
    let mut all = Bucket::EMPTY;
    for b in buckets {
        all = all.plus(*b);
    }
    all
}

// The swap costs of the warm segments, added, and the same with each multiplied by its size.
#[derive(Clone, Copy)]
pub struct StartSwaps {
    pub swap: LoadUnits,
    pub swapz: LoadUnits,
}

// The swap cost of a segment of size z with that mark in the table before step 1: nothing where it is not warm.
fn start_swap(a: u8, z: u16, mark: u16) -> LoadUnits
    ensures within { result.0 < 2 ^ 25 }
    ensures exact { result.0 ≡ cond (eqb mark 0) (swap_cost a z) 0 }
{
    if mark == 0 {
        return model::swap_cost(a, z);
    }
    LoadUnits(0)
}

// The swap costs of the warm segments: nothing to look for where there are none.
pub fn start_swaps(a: u8, sizes: &[u16], warm: &[u16]) -> StartSwaps
    requires { length sizes.now ≤ most_segs }
    ensures { result ≡ start_swaps a sizes.now warm.now }
{
    let mut swap = LoadUnits(0);
    let mut swapz = LoadUnits(0);
    if warm.is_empty() {
        return StartSwaps { swap, swapz };
    }
    let table = model::start_table(warm);
    for (&z, &mark) in sizes.iter().zip(&table) {
        let w = start_swap(a, z, mark);
        swap = swap.plus(w);
        swapz = swapz.plus(w.times(z));
    }
    StartSwaps { swap, swapz }
}

// The sums of all buckets with the swap costs of the warm segments, which are no touches.
fn with_start(mut b: Bucket, start: StartSwaps) -> Bucket
    requires { Holds most_items (with_start start b) }
    ensures { result ≡ with_start start b }
{
    b.swap = b.swap.plus(start.swap);
    b.swapz = b.swapz.plus(start.swapz);
    b
}

// No figures: what the rows beyond the sheet's have.
fn no_figures() -> [RowFigures; Sheet::MAX_ROWS]
    ensures { result ≡ no_row_figures }
{
    [RowFigures::zero(); Sheet::MAX_ROWS]
}

// The figures of every row from the buckets and the warm segments; zeros beyond the rows. Q and V are sums over the touches alone.
// Not inlined: so its arrays are off the stack while its caller makes other calls.
#[inline(never)]
pub fn all_rows(
    kind: Kind,
    a: u8,
    prices: [PriceRow; Sheet::MAX_ROWS],
    rows: usize,
    sizes: &[u16],
    warm: &[u16],
    refs: &[u16],
    tally: &Tally,
) -> [RowFigures; Sheet::MAX_ROWS]
    requires { (rows ≤ most_rows)
        × Tallied (take rows prices) (run_of kind a sizes.now warm.now refs.now) tally.now }
    ensures { result ≡ run_figures (take rows prices) (run_of kind a sizes.now warm.now refs.now) }
{
    let touches = add_up(&tally.buckets);
    let all = with_start(touches, start_swaps(a, sizes, warm));
    let volume = touches.volume;
    let cost = MemoryUnits(crate::row_sums::by_kind(kind, touches.count, volume));
    let mut kept = Bucket::EMPTY;
    let mut ends = Bucket::EMPTY;
    let mut out = no_figures();
    for (r, &row) in prices[..rows].iter().enumerate() {
        kept = kept.plus(tally.buckets[r]);
        ends = ends.plus(tally.ends[r]);
        let sums = Sums {
            cost,
            volume,
            all,
            kept,
            ends,
        };
        out[r] = sums.figures(kind, a, row, refs.len());
    }
    out
}
