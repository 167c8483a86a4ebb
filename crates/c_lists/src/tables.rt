// Rows of prices and buckets in lists of numbers, and those that such lists hold.
// The lists are written in specs/Tables.antt.
ghost use Rattle.std.specs.Prelude.{◌≡◌, ◌+◌, ◌≤◌, length};
ghost use Rattle.model.specs.Sums.{tabulate};
ghost use Rattle.buckets.specs.Buckets.{bucket_count};
ghost use Rattle.c_lists.specs.Tables.{rows_of, bucket_from, bucket_in, sums_of};
ghost use Rattle.c_lists.specs.inner.Apart.{prices_of};
ghost use Rattle.c_lists.specs.inner.InPlace.{with_sums};

use buckets::{Bucket, Tally};
use model::{LoadUnits, MemoryUnits, PriceRow, Sheet};

// The prices of rows, apart, as C has them: of a load unit, and of a memory unit.
#[derive(Clone, Copy)]
pub struct Prices {
    pub h: [u16; Sheet::MAX_ROWS],
    pub d: [u16; Sheet::MAX_ROWS],
}

// The rows of prices that stand apart.
pub(crate) fn rows_of(
    h: &[u16; Sheet::MAX_ROWS],
    d: &[u16; Sheet::MAX_ROWS],
) -> [PriceRow; Sheet::MAX_ROWS]
    ensures { result ≡ rows_of h.now d.now }
{
    let mut rows = [PriceRow { h: 0, d: 0 }; Sheet::MAX_ROWS];
    for (i, row) in rows.iter_mut().enumerate() {
        *row = PriceRow { h: h[i], d: d[i] };
    }
    rows
}

// The prices of rows, apart.
pub(crate) fn split(rows: [PriceRow; Sheet::MAX_ROWS]) -> Prices
    ensures { result ≡ prices_of rows }
{
    Prices {
        h: rows.map(|row| row.h),
        d: rows.map(|row| row.d),
    }
}

// The bucket whose six sums stand from `at` on.
pub(crate) fn bucket_at(sums: &[u64], at: usize) -> Bucket
    requires { at + 6 ≤ length sums.now }
    ensures { result ≡ bucket_from sums.now at }
{
    Bucket {
        count: sums[at],
        volume: sums[at + 1],
        retention: MemoryUnits(sums[at + 2]),
        swap: LoadUnits(sums[at + 3]),
        retentionz: MemoryUnits(sums[at + 4]),
        swapz: LoadUnits(sums[at + 5]),
    }
}

// Stores the six sums of a bucket from `at` on.
pub(crate) fn store_bucket(b: Bucket, sums: &mut [u64], at: usize)
    requires { at + 6 ≤ length sums.old }
    ensures { sums.new ≡ with_sums sums.old at b }
{
    sums[at] = b.count;
    sums[at + 1] = b.volume;
    sums[at + 2] = b.retention.0;
    sums[at + 3] = b.swap.0;
    sums[at + 4] = b.retentionz.0;
    sums[at + 5] = b.swapz.0;
}

// The buckets that the sums hold.
pub(crate) fn buckets_of(sums: &[u64; Bucket::SUMS * Tally::BUCKETS]) -> [Bucket; Tally::BUCKETS]
    ensures { result ≡ tabulate bucket_count (bucket_in sums.now) }
{
    let mut buckets = buckets::pass::empty_buckets();
    for (k, b) in buckets.iter_mut().enumerate() {
        *b = bucket_at(sums, Bucket::SUMS * k);
    }
    buckets
}

// Stores the buckets in the sums.
pub(crate) fn store_buckets(
    buckets: [Bucket; Tally::BUCKETS],
    sums: &mut [u64; Bucket::SUMS * Tally::BUCKETS],
)
    ensures { sums.new ≡ sums_of buckets }
{
    for (k, b) in buckets.iter().enumerate() {
        store_bucket(*b, sums, Bucket::SUMS * k);
    }
}
