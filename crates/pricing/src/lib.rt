// Checking and pricing a schedule handed in: one pass over its steps that keeps the costs of those priced so far. What a price is is
// written in crate `model`; nothing is assumed.
#![tactic(auto)]

mod byte_words;
mod held_bits;
mod step_price;

ghost use Rattle.std.specs.Prelude.{◌≡◌, cond, ◌≤◌, ◌<◌, length};
ghost use Rattle.model.specs.Sheets.{most_segs, RunWithin};
ghost use Rattle.model.specs.Costs.{unit_cost};
ghost use Rattle.schedule.specs.inner.Runs.{trace};
ghost use Rattle.pricing.specs.inner.Held.{StartBits};
ghost use Rattle.pricing.specs.inner.Prices.{price_answer};
ghost use Rattle.pricing.specs.inner.StartCost.{start_cost};

use held_bits::Handed;
use model::{Amount, Kind, LoadUnits, MemoryUnits, Price, PriceRow, Refusal};
use schedule::{Run, Schedule};
use step_price::Costs;

// What a segment of size z costs for one step where it is held, else 0.
fn unit_where(held: bool, kind: Kind, z: u16) -> MemoryUnits
    ensures { (result.0 ≡ cond held (unit_cost kind z) 0) × (result.0 < 65536) }
{
    if held {
        return model::unit_cost(kind, z);
    }
    MemoryUnits(0)
}

// What the warm segments cost for one step.
fn start_cost(run: &Run) -> MemoryUnits
    requires { length run.now.sizes.now ≤ most_segs }
    ensures { result.0 ≡ start_cost run.now.kind run.now.sizes.now run.now.warm.now }
{
    if run.warm.is_empty() {
        return MemoryUnits(0);
    }
    let last = model::start_table(run.warm);
    let mut cost = MemoryUnits(0);
    for (i, z) in run.sizes.iter().enumerate() {
        cost = cost.plus(unit_where(last[i] == 0, run.kind, *z));
    }
    cost
}

// The price of a schedule at a row.
fn price_from(handed: &Handed, row: PriceRow) -> Result<Price, Refusal>
    requires run_within { RunWithin (trace handed.now.run) }
    requires start_is { (length handed.now.start ≡ 4) × StartBits handed.now.run.warm.now handed.now.start }
    ensures { result ≡ price_answer (trace handed.now.run) row.h row.d handed.now.schedule.now }
{
    if handed.schedule.len() != Schedule::STEP_BYTES * handed.run.refs.len() {
        return Err(Refusal::ScheduleLength);
    }
    let mut c = Costs {
        held: start_cost(&handed.run),
        memory: MemoryUnits(0),
        load: LoadUnits(0),
    };
    for t in 0..handed.run.refs.len() {
        c = handed.step(t, c)?;
    }
    Ok(Price {
        memory: c.memory,
        load: c.load,
        total: model::total(row, c.memory, c.load),
    })
}

// The price of a schedule handed in at a row, or why it is refused: 8, then 9 or 10 of the earliest faulty step. A warm segment counts as
// held before step 1.
pub fn price(run: &Run, row: PriceRow, schedule: &[u8]) -> Result<Price, Refusal>
    requires { RunWithin (trace run.now) }
    ensures { result ≡ price_answer (trace run.now) row.h row.d schedule.now }
{
    let mask = schedule::starting::start_mask(run.warm);
    let handed = Handed {
        run: *run,
        start: held_bits::start_words(&mask),
        schedule,
    };
    price_from(&handed, row)
}
