// The first row that keeps a reuse, by priced comparisons in three rounds: for the loops over references and segments and for one touch.
// Not by `partition_point`, where each look waits for the one before: among 64 rows it took three times as long (37 ns against 12), and
// all figures at 64 rows would take more than twice the time at one.
// What each function gives is written in specs/.
ghost use Rattle.std.specs.Prelude.{◌≡◌, cond, ◌+◌, ◌*◌, ◌≤◌, ◌<◌, take};
ghost use Rattle.model.specs.Sheets.{most_rows};
ghost use Rattle.buckets.specs.FirstRow.{last_bucket};
ghost use Rattle.buckets.specs.inner.Search.{prices_of, retained, kept_at, Priceable, Narrows, Found};
ghost use Rattle.buckets.specs.inner.Search.{IsFirstRow, IsBucket, IsTouchBucket};

use crate::Tally;
use model::{Amount, LoadUnits, MemoryUnits, PriceRow, Sheet};

// The two costs of a reuse: its retention, if it is kept, and its swap cost, if it is not.
#[derive(Clone, Copy)]
pub struct Reuse {
    pub retention: MemoryUnits,
    pub swap: LoadUnits,
}

// The prices of `count` rows, in as many places as a sheet may have; beyond the last row a place has no prices.
#[derive(Clone, Copy)]
pub struct Prices {
    pub count: usize,
    pub rows: [PriceRow; Sheet::MAX_ROWS],
}

impl Prices {
    // The prices of the first `count` rows.
    pub fn of(mut rows: [PriceRow; Sheet::MAX_ROWS], count: usize) -> Prices
        requires { count ≤ most_rows }
        ensures { result ≡ prices_of count (take count rows) }
    {
        rows[count..].fill(PriceRow { h: 0, d: 0 });
        Prices { count, rows }
    }

    // 1 where row r does not keep a reuse, and else 0. A row beyond the last has no prices, and keeps all.
    fn unkept(&self, reuse: Reuse, r: usize) -> usize
        requires { Priceable reuse.retention.0 reuse.swap.0 × (r < most_rows) }
        ensures { result ≡ cond (kept_at self.now.rows reuse r) 0 1 }
    {
        let row = self.rows[r];
        let memory = reuse.retention.priced(row.d);
        let load = reuse.swap.priced(row.h);
        if model::kept(memory, load) { 0 } else { 1 }
    }

    // One round: of 4 * s rows from `lo` on it leaves s, from how many of three rows s apart do not keep the reuse. Those come first. None
    // where there are no more than s rows.
    fn narrowed(&self, reuse: Reuse, lo: usize, s: usize) -> usize
        requires { Priceable reuse.retention.0 reuse.swap.0 × (1 ≤ s)
            × Found self.now.rows reuse self.now.count lo (4 * s) }
        ensures { Found self.now.rows reuse self.now.count result s }
    {
        if self.count <= s {
            return 0;
        }
        let first = self.unkept(reuse, lo + s - 1);
        let second = self.unkept(reuse, lo + 2 * s - 1);
        let third = self.unkept(reuse, lo + 3 * s - 1);
        lo + s * (first + second + third)
    }

    // The last round: of four neighbours from `lo` on it leaves the first that keeps the reuse, or the row after them.
    fn settled(&self, reuse: Reuse, lo: usize) -> usize
        requires { Priceable reuse.retention.0 reuse.swap.0 × (lo + 4 ≤ most_rows) }
        ensures { Narrows self.now.rows reuse lo 4 result 0 }
    {
        let first = self.unkept(reuse, lo);
        let second = self.unkept(reuse, lo + 1);
        let third = self.unkept(reuse, lo + 2);
        let fourth = self.unkept(reuse, lo + 3);
        lo + first + second + third + fourth
    }

    // The first row that keeps a reuse, or one beyond the last: three rounds, or one look where there is one row.
    pub fn first_kept(&self, reuse: Reuse) -> usize
        requires { Priceable reuse.retention.0 reuse.swap.0 }
        ensures { Found self.now.rows reuse self.now.count result 0 }
    {
        if self.count <= 1 {
            return self.unkept(reuse, 0);
        }
        let of_sixteen = self.narrowed(reuse, 0, 16);
        let of_four = self.narrowed(reuse, of_sixteen, 4);
        self.settled(reuse, of_four)
    }

    // The bucket of a reuse: that of the first row that keeps it; the last where none does.
    fn first_row(&self, reuse: Reuse) -> usize
        requires { Priceable reuse.retention.0 reuse.swap.0 }
        ensures within { result ≤ last_bucket }
        ensures exact { IsFirstRow self.now reuse result }
    {
        let k = self.first_kept(reuse);
        if k < self.count { k } else { Tally::LAST }
    }

    // The bucket of a touch or an end interval: of a reuse, which has a retention, that of the first row that keeps it; else the last.
    pub fn bucket_of(&self, retention: Option<MemoryUnits>, swap: LoadUnits) -> usize
        requires { Priceable (retained retention) swap.0 }
        ensures within { result ≤ last_bucket }
        ensures exact { IsBucket self.now retention swap result }
    {
        match retention {
            Some(retention) => self.first_row(Reuse { retention, swap }),
            None => Tally::LAST,
        }
    }
}

// The bucket of a single touch.
pub fn bucket(
    prices: [PriceRow; Sheet::MAX_ROWS],
    rows: usize,
    retention: Option<MemoryUnits>,
    swap: LoadUnits,
) -> usize
    requires rows_le_most_rows { rows ≤ most_rows }
    requires costs_bound { Priceable (retained retention) swap.0 }
    ensures within { result ≤ last_bucket }
    ensures exact { IsTouchBucket (take rows prices) retention swap result }
{
    Prices::of(prices, rows).bucket_of(retention, swap)
}
