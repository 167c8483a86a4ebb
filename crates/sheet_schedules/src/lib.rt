// What is asked of the schedules of an accepted sheet: the optimal one of a row, written, in form 4 that of the least total with stores
// counted, and the price of one handed in. What is answered is written in crate `stores`; nothing is assumed.
#![tactic(auto)]

ghost use Rattle.std.specs.Prelude.{◌≡◌, ◌++◌, ◌*◌, ◌≤◌, ltb, length, drop};
ghost use Rattle.model.specs.Places.{PlaceLeft};
ghost use Rattle.model.specs.Sheets.{RunWithin, marks_of};
ghost use Rattle.model.specs.Standing.{Standing};
ghost use Rattle.model.specs.Traces.{steps};
ghost use Rattle.model.specs.Values.{value_of};
ghost use Rattle.pricing.specs.inner.Prices.{price_answer};
ghost use Rattle.schedule.specs.inner.Runs.{trace};
ghost use Rattle.stores.specs.Plans.{price_for};
ghost use Rattle.sheet_schedules.specs.inner.FormPlans.{plan_of, plan_for};
ghost use Rattle.sheet_schedules.specs.inner.MarkedPrices.{marked_price};

use model::{LoadUnits, Price, PriceRow, Refusal, Sheet};
use schedule::{Run, Schedule};

// Whether a place of `size` bytes is shorter than a schedule of so many steps.
fn too_short(steps: usize, size: usize) -> bool
    ensures { result ≡ ltb size (32 * steps) }
{
    size / Schedule::STEP_BYTES < steps
}

// The schedule that is made for a sheet's form at the head of a lent place, whatever stood there; what stands beyond it stays.
fn write_plan(form: u8, run: &Run, row: PriceRow, marks: &[bool], out: &mut [u8])
    requires run_within { RunWithin (trace run.now) × (4 ≤ form → length marks.now ≡ steps (trace run.now)) }
    requires refs_in_bounds { 32 * steps (trace run.now) ≤ length out.old }
    ensures { out.new ≡ plan_of form (trace run.now)
        (marks_of marks.now) row.h row.d ++ drop (32 * steps (trace run.now)) out.old }
{
    if 4 <= form {
        store_plan::write_modified(run, row, marks, out);
        return;
    }
    schedule::writing::write_optimal(run, row, out);
}

// The schedule that is made for the form of an accepted sheet, of a row, into a lent place, and its length: 7, then 11.
pub fn sheet_plan(s: Sheet, row: usize, out: &mut [u8]) -> Result<usize, Refusal>
    requires { Standing s }
    ensures { PlaceLeft (plan_for (value_of s) row) out.old out.new result }
{
    if s.head.rows <= row {
        return Err(Refusal::NoSuchRow);
    }
    if too_short(s.steps, out.len()) {
        return Err(Refusal::PlaceTooShort);
    }
    let run = Run::of_sheet(&s);
    let marked = s.marked;
    write_plan(s.form, &run, s.head.prices[row], &s.marks[..marked], out);
    Ok(Schedule::of_steps(s.steps).length())
}

// The price of an accepted schedule with its stores counted, from its price without them.
fn stores_added(run: &Run, row: PriceRow, marks: &[bool], schedule: &[u8], plain: Price) -> Price
    requires run_within { RunWithin (trace run.now) × (length marks.now ≡ steps (trace run.now)) }
    requires plain_is { price_answer (trace run.now) row.h row.d schedule.now ≡ Ok plain }
    ensures { result ≡ marked_price (trace run.now) (marks_of marks.now) row.h row.d schedule.now }
{
    let stores = store_plan::store_price::stored_load(run.a, run.sizes, run.refs, marks, schedule);
    let load = LoadUnits(plain.load.0 + stores.0);
    Price {
        memory: plain.memory,
        load,
        total: model::total(row, plain.memory, load),
    }
}

// The price of a schedule at a row of an accepted sheet, the stores of its marks counted: 7, then 8, 9, 10.
pub fn sheet_price(s: Sheet, row: usize, schedule: &[u8]) -> Result<Price, Refusal>
    requires { Standing s }
    ensures { result ≡ price_for (value_of s) row schedule.now }
{
    if s.head.rows <= row {
        return Err(Refusal::NoSuchRow);
    }
    let run = Run::of_sheet(&s);
    let prices = s.head.prices[row];
    let plain = pricing::price(&run, prices, schedule)?;
    if s.marked == 0 {
        return Ok(plain);
    }
    let marked = s.marked;
    Ok(stores_added(&run, prices, &s.marks[..marked], schedule, plain))
}
