// modtotal of every row of an accepted sheet of form 4: its opttotal, and one pass over the references a row for what the modifying touches
// add. What they add is written in crate `stores`.
ghost use Rattle.std.specs.Prelude.{◌≡◌, ℕ, ◌≤◌, ◌<◌, length, get_or};
ghost use Rattle.model.specs.Figures.{opttotal};
ghost use Rattle.model.specs.Rows.{zero_figures};
ghost use Rattle.model.specs.Sheets.{most_rows, RunWithin, row_in, trace_of, marks_of};
ghost use Rattle.model.specs.Standing.{Standing};
ghost use Rattle.model.specs.Values.{value_of, zeros};
ghost use Rattle.model.specs.RowAnswers.{all_figures};
ghost use Rattle.schedule.specs.inner.Runs.{trace};
ghost use Rattle.stores.specs.Modtotal.{modtotal};
ghost use Rattle.store_plan.specs.inner.Modtotals.{some_mark, first_modtotals};

use model::{PriceRow, RowFigures, Sheet};
use schedule::Run;

// Whether any touch modifies.
fn any_mark(marks: &[bool]) -> bool
    ensures { result ≡ some_mark marks.now }
{
    marks.contains(&true)
}

// No modtotals.
pub fn no_modtotals() -> [u64; Sheet::MAX_ROWS]
    ensures { result ≡ zeros most_rows }
{
    [0; Sheet::MAX_ROWS]
}

// modtotal of a row from its opttotal: where no touch modifies they are the same, and no pass is made.
fn row_modtotal(any: bool, total: u64, run: &Run, row: PriceRow, marks: &[bool]) -> u64
    requires run_within { RunWithin (trace run.now) × (length marks.now ≡ length run.now.refs.now) }
    requires any_value { (any ≡ some_mark marks.now) × (total ≡ opttotal (trace run.now) row.h row.d) }
    ensures { result ≡ modtotal (trace run.now) (marks_of marks.now) row.h row.d }
{
    if any {
        return total + crate::mod_pass::find(run, row, marks).added.0;
    }
    total
}

// modtotal of the first `n` rows from their figures.
fn first_modtotals(
    run: &Run,
    marks: &[bool],
    prices: [PriceRow; Sheet::MAX_ROWS],
    all: [RowFigures; Sheet::MAX_ROWS],
    n: usize,
) -> [u64; Sheet::MAX_ROWS]
    requires run_within { RunWithin (trace run.now) × (length marks.now ≡ length run.now.refs.now) × (n ≤ most_rows) }
    requires by_index { (r : ℕ) → r < n → (get_or all r zero_figures).opttotal
        ≡ opttotal (trace run.now) (row_in prices r).h (row_in prices r).d }
    ensures { result ≡ first_modtotals (trace run.now) (marks_of marks.now) prices n }
{
    let any = any_mark(marks);
    let mut totals = no_modtotals();
    for r in 0..n {
        let row = prices[r];
        totals[r] = row_modtotal(any, all[r].opttotal, run, row, marks);
    }
    totals
}

// modtotal of every row of an accepted sheet of form 4 from the figures of every row.
// Not inlined: so its arrays are off the stack while its caller makes other calls.
#[inline(never)]
pub fn all_modtotals(s: Sheet, all: [RowFigures; Sheet::MAX_ROWS]) -> [u64; Sheet::MAX_ROWS]
    requires { Standing s × (4 ≤ s.form) × (all ≡ all_figures (value_of s)) }
    ensures { result ≡ first_modtotals (trace_of (value_of s)) (marks_of (value_of s).marks) s.head.prices s.head.rows }
{
    let run = Run::of_sheet(&s);
    let marked = s.marked;
    first_modtotals(&run, &s.marks[..marked], s.head.prices, all, s.head.rows)
}
