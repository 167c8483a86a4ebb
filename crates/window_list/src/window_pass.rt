// The window recursion over a run: its reuses and end intervals are counted by length, and one addition and one subtraction give each
// window. What the values are is written in crate `windows`. Sizes and references pass as lent u16 slices, as document 01 asks.
ghost use Rattle.std.specs.Prelude.{◌≡◌, ◌++◌, ℕ, ◌≤◌, length, drop};
ghost use Rattle.model.specs.Places.{PlaceLeft};
ghost use Rattle.model.specs.Sheets.{RunWithin, most_steps};
ghost use Rattle.model.specs.Traces.{steps, refs_of};
ghost use Rattle.model.specs.LastTouches.{last_table};
ghost use Rattle.windows.specs.Windows.{window_run, window_list};
ghost use Rattle.window_list.specs.inner.Counts.{no_counts, Room, with_interval, with_ends, reuse_counts};

use model::{Refusal, Sheet};

// The counts by length: a place for each number of steps from 0 to one more than the most.
const LENGTHS: usize = Sheet::MAX_STEPS + 2;

// What the pass over the steps gives beside the counts: how many touches there are, and the table of last touches.
#[derive(Clone, Copy)]
struct Passed {
    touches: u64,
    last: [u16; Sheet::MAX_SEGS],
}

// Counts the interval that ends after so many steps, of a segment with that mark in the table of last touches; an untouched one has none.
fn count(counts: &mut [u16], mark: u16, steps: u16)
    requires { (steps ≤ most_steps) × Room counts.old }
    ensures { counts.new ≡ with_interval counts.old mark steps }
{
    if mark <= steps {
        let u = usize::from(steps - mark) + 1;
        counts[u] += 1;
    }
}

// Counts the reuses: one pass over the steps.
fn count_reuses(sizes: &[u16], refs: &[u16], counts: &mut [u16]) -> Passed
    requires run_within { RunWithin (window_run sizes.now refs.now) }
    requires counts_value { counts.old ≡ no_counts }
    ensures touches_value { result.touches ≡ refs_of (window_run sizes.now refs.now) }
    ensures last_value { result.last ≡ last_table (window_run sizes.now refs.now) (length refs.now) }
    ensures counts_after { counts.new ≡ reuse_counts (window_run sizes.now refs.now) (length refs.now) }
{
    let mut touches = 0;
    let mut last = model::start_table(&[]);
    for (t, &entry) in refs.iter().enumerate() {
        let i = usize::from(entry);
        if i < sizes.len() {
            count(counts, last[i], t as u16);
            touches += 1;
            last[i] = (t + 1) as u16;
        }
    }
    Passed { touches, last }
}

// Counts the end intervals after so many steps, of the segments with these marks in the table of last touches.
fn count_ends(marks: &[u16], steps: u16, counts: &mut [u16])
    requires { (steps ≤ most_steps) × ((n : ℕ) → n ≤ length marks.now → Room (with_ends counts.old marks.now steps n)) }
    ensures { counts.new ≡ with_ends counts.old marks.now steps (length marks.now) }
{
    for &mark in marks {
        count(counts, mark, steps);
    }
}

// The value of each window from 1 to the number of steps, at the head of a lent place; what stands beyond it stays.
fn write_windows(sizes: &[u16], refs: &[u16], out: &mut [u64])
    requires run_within { RunWithin (window_run sizes.now refs.now) }
    requires refs_in_bounds { length refs.now ≤ length out.old }
    ensures { out.new
        ≡ window_list (window_run sizes.now refs.now) ++ drop (length refs.now) out.old }
{
    let mut counts = [0; LENGTHS];
    let passed = count_reuses(sizes, refs, &mut counts);
    let last = passed.last;
    let segs = sizes.len();
    count_ends(&last[..segs], refs.len() as u16, &mut counts);
    let mut value = passed.touches;
    let mut more = passed.touches;
    for t in 0..refs.len() {
        out[t] = value;
        more -= u64::from(counts[t + 1]);
        value += more;
    }
}

// The value of each window from 1 to the number of steps, at the head of a lent place; 11 where it is too short.
pub fn windows(sizes: &[u16], refs: &[u16], out: &mut [u64]) -> Result<usize, Refusal>
    requires { RunWithin (window_run sizes.now refs.now) }
    ensures { PlaceLeft (Ok (window_list (window_run sizes.now refs.now))) out.old out.new result }
{
    if out.len() < refs.len() {
        return Err(Refusal::PlaceTooShort);
    }
    write_windows(sizes, refs, out);
    Ok(refs.len())
}
