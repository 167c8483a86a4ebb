// Sums and tests with which a recorder put together by hand, with any numbers in it, makes no sum exceed 64 bits. A recorder that stands
// for a sheet passes every test.
ghost use Rattle.std.specs.Prelude.{◌≡◌, ℕ, ◌+◌, ◌≤◌, ◌^◌, ◌↔◌, IsTrue};
ghost use Rattle.buckets.specs.Buckets.{bucket_count};
ghost use Rattle.model.specs.Sheets.{most_steps, most_segs};
ghost use Rattle.buckets.specs.inner.Pass.{Limited, Within, Roomy, added, with_touch};
ghost use Rattle.figures.specs.inner.Sweep.{summed, with_start};
ghost use Rattle.figures.specs.inner.OneRow.{most_items, Holds, KeptWithin};

use crate::Recorder;
use buckets::pass::Touch;
use buckets::{Bucket, Tally};
use figures::rows::StartSwaps;
use model::{LoadUnits, MemoryUnits};

// What a sum holds at most before something is added to it.
pub const ROOM: u64 = 1_152_921_504_606_846_976;

// The items of all buckets with those of the warm segments.
pub const ITEMS: u64 = (Recorder::MAX_STEPS + Recorder::MAX_SEGS) as u64;

// A number that no retention exceeds, and neither Q nor V, and the largest swap cost; and both times the largest size.
pub const RETENTION: u64 = Recorder::MAX_STEPS as u64 * Recorder::MAX_SIZE;

const SWAP: u64 = 1 + Recorder::MAX_A * Recorder::MAX_SIZE;

const RETENTIONZ: u64 = RETENTION * Recorder::MAX_SIZE;

const SWAPZ: u64 = SWAP * Recorder::MAX_SIZE;

// A sum with one more number, where both leave room; else as it was.
pub fn more(sum: u64, x: u64) -> u64
    ensures { sum ≤ 2 ^ 60 → x ≤ 2 ^ 60 → result ≡ sum + x }
{
    if sum <= ROOM && x <= ROOM {
        sum + x
    } else {
        sum
    }
}

// Whether every sum of a bucket leaves room.
pub fn has_room(b: Bucket) -> bool
    ensures { IsTrue result ↔ Within b (2 ^ 60) }
{
    b.count <= ROOM
        && b.volume <= ROOM
        && b.retention.0 <= ROOM
        && b.swap.0 <= ROOM
        && b.retentionz.0 <= ROOM
        && b.swapz.0 <= ROOM
}

// Whether every sum of every bucket leaves room.
pub fn roomy(buckets: [Bucket; Tally::BUCKETS]) -> bool
    ensures { IsTrue result ↔ Roomy buckets (2 ^ 60) }
{
    buckets.iter().all(|b| has_room(*b))
}

// A bucket with one more touch, where its sums leave room; else as it was.
pub fn file(b: Bucket, x: Touch) -> Bucket
    requires { Limited x }
    ensures { Within b (2 ^ 60) → result ≡ with_touch b x }
{
    if has_room(b) {
        buckets::pass::add_touch(b, x)
    } else {
        b
    }
}

// Two buckets, each sum added, where both leave room; else that sum of the first.
fn join(x: Bucket, y: Bucket) -> Bucket
    ensures { Within x (2 ^ 60) → Within y (2 ^ 60) → result ≡ added x y }
{
    Bucket {
        count: more(x.count, y.count),
        volume: more(x.volume, y.volume),
        retention: MemoryUnits(more(x.retention.0, y.retention.0)),
        swap: LoadUnits(more(x.swap.0, y.swap.0)),
        retentionz: MemoryUnits(more(x.retentionz.0, y.retentionz.0)),
        swapz: LoadUnits(more(x.swapz.0, y.swapz.0)),
    }
}

// The first n buckets, added.
pub fn sum_first(buckets: [Bucket; Tally::BUCKETS], n: usize) -> Bucket
    requires { n ≤ bucket_count }
    ensures { ((m : ℕ) → m ≤ n → Holds most_steps (summed buckets m)) → result ≡ summed buckets n }
{
    let mut all = Bucket::EMPTY;
    for b in &buckets[..n] {
        all = join(all, *b);
    }
    all
}

// The sums of all buckets with the swap costs of the warm segments, where both leave room; else as they were.
pub fn with_start(mut b: Bucket, start: StartSwaps) -> Bucket
    ensures { Holds most_items (with_start start b) → result ≡ with_start start b }
{
    b.swap = LoadUnits(more(b.swap.0, start.swap.0));
    b.swapz = LoadUnits(more(b.swapz.0, start.swapz.0));
    b
}

// Whether a bucket can be one of n items.
pub fn holds(b: Bucket, n: u64) -> bool
    requires { n ≤ most_items }
    ensures { IsTrue result ↔ Holds n b }
{
    b.count <= n
        && b.volume <= n * Recorder::MAX_SIZE
        && b.retention.0 <= n * RETENTION
        && b.swap.0 <= n * SWAP
        && b.retentionz.0 <= n * RETENTIONZ
        && b.swapz.0 <= n * SWAPZ
}

// Whether what is kept is within the whole.
pub fn within(all: Bucket, kept: Bucket, ends: Bucket) -> bool
    requires { Holds most_steps kept × Holds most_segs ends }
    ensures { IsTrue result ↔ KeptWithin all kept ends }
{
    kept.count <= all.count
        && kept.volume <= all.volume
        && kept.swap.0 + ends.swap.0 <= all.swap.0
        && kept.swapz.0 + ends.swapz.0 <= all.swapz.0
}
