// The buckets of a sheet: one per row and the last. The single pass over the references fills them.
// What they hold is written in specs/; nothing is assumed.
#![tactic(auto)]

pub mod pass;
pub mod search;

ghost use Rattle.std.specs.Prelude.{◌≡◌, ◌^◌};
ghost use Rattle.buckets.specs.inner.Pass.{added, Within};

use model::{Amount, LoadUnits, MemoryUnits, Sheet};

// A bucket: how many touches it holds, their sizes, retentions and swap costs added, the last two also with each item multiplied by
// its size.
#[derive(Clone, Copy)]
pub struct Bucket {
    pub count: u64,
    pub volume: u64,
    pub retention: MemoryUnits,
    pub swap: LoadUnits,
    pub retentionz: MemoryUnits,
    pub swapz: LoadUnits,
}

impl Bucket {
    // How many sums.
    pub const SUMS: usize = 6;
    // A bucket that holds nothing.
    pub const EMPTY: Bucket = Bucket {
        count: 0,
        volume: 0,
        retention: MemoryUnits(0),
        swap: LoadUnits(0),
        retentionz: MemoryUnits(0),
        swapz: LoadUnits(0),
    };

    // Two buckets, each sum added.
    pub fn plus(self, other: Bucket) -> Bucket
        requires { Within (added self other) (2 ^ 63) }
        ensures { result ≡ added self other }
    {
        Bucket {
            count: self.count + other.count,
            volume: self.volume + other.volume,
            retention: self.retention.plus(other.retention),
            swap: self.swap.plus(other.swap),
            retentionz: self.retentionz.plus(other.retentionz),
            swapz: self.swapz.plus(other.swapz),
        }
    }
}

// What the pass hands over: a bucket per row and the last, for touches and for end intervals.
#[derive(Clone, Copy)]
pub struct Tally {
    pub buckets: [Bucket; Tally::BUCKETS],
    pub ends: [Bucket; Tally::BUCKETS],
}

impl Tally {
    // How many buckets: one per row, and the last.
    pub const BUCKETS: usize = Sheet::MAX_ROWS + 1;
    // The last bucket: first touches of segments that are not warm, and reuses that no row keeps.
    pub const LAST: usize = Sheet::MAX_ROWS;
}
