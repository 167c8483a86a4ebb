// The figures of one row from the sums over the buckets: over all, over those that the row keeps, and over the end intervals that it keeps.
// What those sums must satisfy is written in specs/OneRow.antt.
ghost use Rattle.std.specs.Prelude.{◌≡◌, ◌+◌, ◌*◌, ◌-◌, ◌≤◌, ◌<◌, ◌^◌};
ghost use Rattle.model.specs.Sheets.{most_steps, largest_size};
ghost use Rattle.figures.specs.inner.OneRow.{by_kind, wsmem_from, wsspace_from, mean_from, row_from};
ghost use Rattle.figures.specs.inner.OneRow.{most_items, Summable, RowFits};

use buckets::Bucket;
use model::{Amount, Kind, LoadUnits, MemoryUnits, PriceRow, RowFigures};

// The load of some misses and their sizes.
fn load_of(a: u8, misses: u64, missed: u64) -> LoadUnits
    requires { (misses ≤ most_items) × (missed ≤ most_items * largest_size) }
    ensures { result.0 ≡ misses + a * missed }
{
    LoadUnits(misses + (a as u64) * missed)
}

// The working set of a row: wsmem, and the same with each item multiplied by its size.
#[derive(Clone, Copy)]
pub struct WorkingSet {
    pub memory: u64,
    pub space: u64,
}

// What the row keeps, with what each reference costs.
fn retained(refs: MemoryUnits, kept: MemoryUnits, ends: MemoryUnits) -> MemoryUnits
    requires { refs.0 + kept.0 + ends.0 < 2 ^ 47 }
    ensures { result.0 ≡ refs.0 + kept.0 + ends.0 }
{
    refs.plus(kept).plus(ends)
}

// The swap costs that the row does not keep. The end intervals have those of the first touches and of the warm segments.
fn removed(all: LoadUnits, kept: LoadUnits, ends: LoadUnits) -> LoadUnits
    requires { kept.0 + ends.0 ≤ all.0 }
    ensures { result.0 ≡ all.0 - kept.0 - ends.0 }
{
    all.minus(kept).minus(ends)
}

// One of two numbers, by the kind.
pub fn by_kind(kind: Kind, time: u64, space: u64) -> u64
    ensures { result ≡ by_kind kind time space }
{
    match kind {
        Kind::Time => time,
        Kind::Space => space,
    }
}

// The mean of an occupancy over the references.
fn mean(refs: usize, d: u16, wsocc: u64) -> u64
    requires { (refs ≤ most_steps) × (1 ≤ d) × (wsocc < 2 ^ 53) }
    ensures { result ≡ mean_from refs d wsocc }
{
    if refs == 0 {
        0
    } else {
        1000 * wsocc / ((d as u64) * (refs as u64))
    }
}

// What the figures of a row are made of: Q and V of the references, the sums over all buckets with the swap costs of the warm segments,
// over those that the row keeps, and over the end intervals that it keeps.
#[derive(Clone, Copy)]
pub struct Sums {
    pub cost: MemoryUnits,
    pub volume: u64,
    pub all: Bucket,
    pub kept: Bucket,
    pub ends: Bucket,
}

impl Sums {
    // The working set of a row.
    pub fn working_set(&self, row: PriceRow) -> WorkingSet
        requires { Summable self.now }
        ensures { result ≡ record { memory = wsmem_from row self.now; space = wsspace_from row self.now } }
    {
        let Sums {
            cost,
            volume,
            all,
            kept,
            ends,
        } = *self;
        let memory = retained(cost, kept.retention, ends.retention);
        let space = retained(MemoryUnits(volume), kept.retentionz, ends.retentionz);
        WorkingSet {
            memory: model::total(row, memory, removed(all.swap, kept.swap, ends.swap)),
            space: model::total(row, space, removed(all.swapz, kept.swapz, ends.swapz)),
        }
    }

    // The figures of a row.
    pub fn figures(&self, kind: Kind, a: u8, row: PriceRow, refs: usize) -> RowFigures
        requires { RowFits kind row refs self.now }
        ensures { result ≡ row_from kind a row refs self.now }
    {
        let kept = self.kept;
        let misses = self.all.count - kept.count;
        let missed = self.all.volume - kept.volume;
        let load = load_of(a, misses, missed);
        let optmem = self.cost.plus(kept.retention);
        let set = self.working_set(row);
        let wsocc = by_kind(kind, set.space, set.memory);
        RowFigures {
            h: row.h as u64,
            d: row.d as u64,
            misses,
            volume: missed,
            load,
            optmem,
            opttotal: model::total(row, optmem, load),
            optocc: self.volume + by_kind(kind, kept.retentionz.0, kept.retention.0),
            wsmem: set.memory,
            wsocc,
            mean: mean(refs, row.d, wsocc),
        }
    }
}
