// The single pass over the references of a sheet, which fills the 65 buckets, and one over its segments for the end intervals.
// What each function gives is written in specs/.
ghost use Rattle.std.specs.Prelude.{◌≡◌, ◌≤◌, ◌^◌, length, take};
ghost use Rattle.model.specs.Sheets.{RowsWithin, RunWithin, run_of, most_segs, most_rows};
ghost use Rattle.buckets.specs.Buckets.{tally_of, all_empty};
ghost use Rattle.buckets.specs.inner.Search.{time_since};
ghost use Rattle.buckets.specs.inner.Pass.{unplaced, Limited, with_touch, with_end, Within, Passable, PassedOn, EndedAt};

use crate::search::Prices;
use crate::{Bucket, Tally};
use model::{Amount, Kind, LoadUnits, MemoryUnits, PriceRow, Sheet};

// A touch: the segment's size, the two costs, and the bucket that it goes to. Only a reuse has a retention; a first touch has none.
#[derive(Clone, Copy)]
pub struct Touch {
    pub size: u16,
    pub retention: Option<MemoryUnits>,
    pub swap: LoadUnits,
    pub bucket: usize,
}

// What the pass over the references has: the buckets and the table of last touches.
#[derive(Clone, Copy)]
pub struct Passed {
    pub buckets: [Bucket; Tally::BUCKETS],
    pub last: [u16; Sheet::MAX_SEGS],
}

// 65 buckets without a touch.
pub fn empty_buckets() -> [Bucket; Tally::BUCKETS]
    ensures { result ≡ all_empty }
{
    [Bucket::EMPTY; Tally::BUCKETS]
}

// A touch, after so many steps, of a segment of size z with that mark; or its end interval. Its bucket is still to be looked for.
pub fn touch_of(kind: Kind, a: u8, z: u16, mark: u16, steps: u16) -> Touch
    ensures within { Limited result }
    ensures exact { result ≡ unplaced kind a z (time_since steps mark) }
{
    Touch {
        size: z,
        retention: steps
            .checked_sub(mark)
            .map(|time| model::retention_cost(kind, z, time)),
        swap: model::swap_cost(a, z),
        bucket: Tally::LAST,
    }
}

// The bucket with one more touch.
pub fn add_touch(b: Bucket, x: Touch) -> Bucket
    requires within { Within b (2 ^ 61) }
    requires limited { Limited x }
    ensures { result ≡ with_touch b x }
{
    let r = x.retention.unwrap_or(MemoryUnits(0));
    let w = x.swap;
    Bucket {
        count: b.count + 1,
        volume: b.volume + x.size as u64,
        retention: b.retention.plus(r),
        swap: b.swap.plus(w),
        retentionz: b.retentionz.plus(r.times(x.size)),
        swapz: b.swapz.plus(w.times(x.size)),
    }
}

// The bucket with one more end interval; a segment that never counts as touched has none.
pub fn add_end(b: Bucket, x: Touch) -> Bucket
    requires within { Within b (2 ^ 61) }
    requires limited { Limited x }
    ensures { result ≡ with_end b x }
{
    if x.retention.is_some() {
        add_touch(b, x)
    } else {
        b
    }
}

// The pass over references, from what it has after `steps` others. It takes the parts of a head and not the head: the sizes of a
// recorder's, which may be put together by hand, are cut off at its arrays.
// Not inlined: so its arrays are off the stack while its caller makes other calls.
#[inline(never)]
pub fn references(
    kind: Kind,
    a: u8,
    prices: &Prices,
    sizes: &[u16],
    from: Passed,
    steps: usize,
    refs: &[u16],
) -> Passed
    requires { Passable from (length sizes.now) steps (length refs.now) }
    ensures { PassedOn kind a sizes.now prices.now steps refs.now from result }
{
    let mut buckets = from.buckets;
    let mut last = from.last;
    for (t, &entry) in refs.iter().enumerate() {
        let i = entry as usize;
        let step = steps + t;
        if i < sizes.len() {
            let mut x = touch_of(kind, a, sizes[i], last[i], step as u16);
            let k = prices.bucket_of(x.retention, x.swap);
            x.bucket = k;
            buckets[k] = add_touch(buckets[k], x);
            last[i] = (step + 1) as u16;
        }
    }
    Passed { buckets, last }
}

// The buckets of the end intervals after so many steps, from the table of last touches.
// Not inlined: so its arrays are off the stack while its caller makes other calls.
#[inline(never)]
pub fn ends(
    kind: Kind,
    a: u8,
    prices: &Prices,
    sizes: &[u16],
    last: &[u16],
    steps: u16,
) -> [Bucket; Tally::BUCKETS]
    requires { (length sizes.now ≤ most_segs) × (length sizes.now ≤ length last.now) }
    ensures { EndedAt kind a sizes.now prices.now steps last.now result }
{
    let mut buckets = empty_buckets();
    for (&z, &mark) in sizes.iter().zip(last) {
        let mut x = touch_of(kind, a, z, mark, steps);
        let k = prices.bucket_of(x.retention, x.swap);
        x.bucket = k;
        buckets[k] = add_end(buckets[k], x);
    }
    buckets
}

// One pass over the references from the warm segments on, then one over the segments for the end intervals.
// Not inlined: so its arrays are off the stack while its caller makes other calls.
#[inline(never)]
pub fn tally(
    kind: Kind,
    a: u8,
    prices: [PriceRow; Sheet::MAX_ROWS],
    rows: usize,
    sizes: &[u16],
    warm: &[u16],
    refs: &[u16],
) -> Tally
    requires { (rows ≤ most_rows) × RowsWithin (take rows prices) × RunWithin (run_of kind a sizes.now warm.now refs.now) }
    ensures { result ≡ tally_of (take rows prices) (run_of kind a sizes.now warm.now refs.now) }
{
    let prices = Prices::of(prices, rows);
    let start = Passed {
        buckets: empty_buckets(),
        last: model::start_table(warm),
    };
    let passed = references(kind, a, &prices, sizes, start, 0, refs);
    let ended = ends(kind, a, &prices, sizes, &passed.last, refs.len() as u16);
    Tally {
        buckets: passed.buckets,
        ends: ended,
    }
}
