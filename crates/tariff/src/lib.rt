// The loading tariff: what a run is billed for the memory and the load of a row.
// What it means is written in specs/; nothing is assumed.
#![tactic(auto)]

ghost use Rattle.std.specs.Prelude.{true, ◌≡◌, ◌<◌, ◌^◌};
ghost use Rattle.tariff.specs.Tariff.{tariff_in_range, started_thousands, bill_of};

use model::{LoadUnits, MemoryUnits};

// An amount in cents.
#[derive(Clone, Copy, Debug, PartialEq, Eq)]
pub struct Cents(pub u64);

// Cents for each started 1,000 memory units and for each started 1,000 load units, and the least that a bill comes to.
#[derive(Clone, Copy)]
pub struct Tariff {
    pub memory_rate: u64,
    pub load_rate: u64,
    pub minimum: u64,
}

// The started thousands of so many units.
fn started_thousands(units: u64) -> u64
    requires { units < 2 ^ 40 }
    ensures { result ≡ started_thousands units }
{
    (units + 999) / 1000
}

impl Tariff {
    // The largest rate.
    pub const MAX_RATE: u64 = 9_999;
    // The largest minimum.
    pub const MAX_MINIMUM: u64 = 99_999;

    // Whether both rates and the minimum lie in their ranges.
    pub fn in_range(self) -> bool
        ensures { result ≡ tariff_in_range self }
    {
        self.memory_rate <= Tariff::MAX_RATE
            && self.load_rate <= Tariff::MAX_RATE
            && self.minimum <= Tariff::MAX_MINIMUM
    }

    // The bill of an amount of memory and an amount of load: the one place where the two become cents.
    // No accepted sheet is billed more than 21,467,473,038 cents: 2,048 touches that all load segments of size 4,095, with a = 255 and
    // kind space, have optmem 8,386,560 and load 2,138,574,848, that is 8,387 and 2,138,575 started thousands, at 9,999 cents each.
    pub fn bill(self, memory: MemoryUnits, load: LoadUnits) -> Cents
        requires { (memory.0 < 2 ^ 40) × (load.0 < 2 ^ 40) × (tariff_in_range self ≡ true) }
        ensures { result.0 ≡ bill_of self memory.0 load.0 }
    {
        let for_memory = started_thousands(memory.0) * self.memory_rate;
        let for_load = started_thousands(load.0) * self.load_rate;
        Cents(self.minimum.max(for_memory + for_load))
    }
}
