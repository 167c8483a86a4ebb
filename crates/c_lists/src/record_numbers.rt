// A recorder in lists of numbers, and the recorder that such lists hold, whatever the numbers are.
// The lists are written in specs/Recorders.antt.
ghost use Rattle.std.specs.Prelude.{◌≡◌, get_or};
ghost use Rattle.recorder.specs.Recorders.{room_verdict};
ghost use Rattle.c_lists.specs.Recorders.{kind_in, kind_number, lists, recorder_in, idle_counts};
ghost use Rattle.c_lists.specs.inner.Stored.{HeadStored, TakenStored};

use crate::tables;
use buckets::{Bucket, Tally};
use model::{Head, Kind, MemoryUnits, Refusal, Sheet};
use recorder::Recorder;

// The kind that a number stands for: C has numbers for kinds.
pub(crate) fn kind_of(n: u64) -> Kind
    ensures { result ≡ kind_in n }
{
    if n == 0 { Kind::Time } else { Kind::Space }
}

// The number of a kind.
pub(crate) fn kind_number(kind: Kind) -> u64
    ensures { result ≡ kind_number kind }
{
    match kind {
        Kind::Time => 0,
        Kind::Space => 1,
    }
}

// The recorder that the lists hold, which stand apart as in the struct of C.
pub fn recorder_of(
    head: &[u64; 5],
    counts: &[u64; 3],
    sizes: &[u16; Sheet::MAX_SEGS],
    holds: &[u16; Sheet::MAX_SEGS],
    h: &[u16; Sheet::MAX_ROWS],
    d: &[u16; Sheet::MAX_ROWS],
    last: &[u16; Sheet::MAX_SEGS],
    sums: &[u64; Bucket::SUMS * Tally::BUCKETS],
) -> Recorder
    ensures { result ≡ recorder_in (lists head.now counts.now sizes.now holds.now
        h.now d.now last.now sums.now) }
{
    Recorder {
        head: Head {
            kind: kind_of(head[0]),
            a: head[1].min(255) as u8,
            segs: head[2] as usize,
            sizes: *sizes,
            rows: head[3] as usize,
            prices: tables::rows_of(h, d),
            warm: head[4] as usize,
            holds: *holds,
        },
        steps: counts[0] as usize,
        last: *last,
        buckets: tables::buckets_of(sums),
        cost: MemoryUnits(counts[1]),
        volume: counts[2],
    }
}

// Stores the kind, a, segs, rows and warm, the sizes, the warm segments and the prices.
pub fn store_head(
    r: Recorder,
    head: &mut [u64; 5],
    sizes: &mut [u16; Sheet::MAX_SEGS],
    holds: &mut [u16; Sheet::MAX_SEGS],
    h: &mut [u16; Sheet::MAX_ROWS],
    d: &mut [u16; Sheet::MAX_ROWS],
)
    ensures { HeadStored r head.new sizes.new holds.new h.new d.new }
{
    let from = r.head;
    let of_segments = from.sizes;
    let warm = from.holds;
    let tables::Prices {
        h: of_load,
        d: of_memory,
    } = tables::split(from.prices);
    *head = [
        kind_number(from.kind),
        u64::from(from.a),
        from.segs as u64,
        from.rows as u64,
        from.warm as u64,
    ];
    *sizes = of_segments;
    *holds = warm;
    *h = of_load;
    *d = of_memory;
}

// Stores the steps taken, Q and V, the table of last touches and the buckets.
pub fn store_taken(
    r: Recorder,
    counts: &mut [u64; 3],
    last: &mut [u16; Sheet::MAX_SEGS],
    sums: &mut [u64; Bucket::SUMS * Tally::BUCKETS],
)
    ensures { TakenStored r counts.new last.new sums.new }
{
    *counts = [r.steps as u64, r.cost.0, r.volume];
    let table = r.last;
    *last = table;
    tables::store_buckets(r.buckets, sums);
}

// One idle step, of which only the counts of a recorder tell: 13.
pub fn idle(counts: &mut [u64; 3]) -> Result<(), Refusal>
    ensures verdict { result ≡ room_verdict (get_or counts.old 0 0) }
    ensures counted { counts.new ≡ idle_counts counts.old }
{
    let [steps, cost, volume] = *counts;
    recorder::taking::idle_verdict(steps as usize)?;
    *counts = [steps + 1, cost, volume];
    Ok(())
}
