// The stores of a schedule handed in that is permitted: one pass over the touches, with a flag for each segment. What a store is is written
// in crate `stores`.
ghost use Rattle.std.specs.Prelude.{◌≡◌, cond, not, ◌&&◌, ◌*◌, ◌^◌, ◌≤◌, ◌<◌, length};
ghost use Rattle.model.specs.Costs.{swap_cost};
ghost use Rattle.model.specs.Schedules.{held, Permitted};
ghost use Rattle.model.specs.Sheets.{most_segs, most_steps, marks_of};
ghost use Rattle.model.specs.Traces.{Trace};
ghost use Rattle.stores.specs.Stays.{stores_of};
ghost use Rattle.store_plan.specs.inner.Passing.{held_after, SizedAs};

use model::{Amount, LoadUnits, Sheet};

// Whether segment i is held after so many steps; before step 1 none counts as held.
fn held_after(schedule: &[u8], steps: usize, i: usize) -> bool
    requires { (32 * steps ≤ length schedule.now) × (i < most_segs) }
    ensures { result ≡ held_after schedule.now steps i }
{
    0 < steps && schedule::reading::holds(schedule, steps - 1, i)
}

// Whether a touch after so many steps finds its segment i held and modified: its flag is set, and it was held since.
fn modified(schedule: &[u8], steps: usize, i: usize, flag: bool) -> bool
    requires { (32 * steps ≤ length schedule.now) × (i < most_segs) }
    ensures { result ≡ held_after schedule.now steps i && flag }
{
    flag && held_after(schedule, steps, i)
}

// What a touch of a segment of size z stores: w where it modifies a segment that was not modified.
fn stored(a: u8, z: u16, marked: bool, modified: bool) -> LoadUnits
    ensures { result.0 ≡ cond (marked && not modified) (swap_cost a z) 0 }
{
    if marked && !modified {
        model::swap_cost(a, z)
    } else {
        LoadUnits(0)
    }
}

// The load of the stores of a permitted schedule, of every run with these sizes, references and marks, whatever is warm.
pub fn stored_load(a: u8, sizes: &[u16], refs: &[u16], marks: &[bool], schedule: &[u8]) -> LoadUnits
    requires sizes_len_bound { (length sizes.now ≤ most_segs) × (length refs.now ≤ most_steps) }
    requires marks_len { (length marks.now ≡ length refs.now) × (length schedule.now ≡ 32 * length refs.now) }
    ensures result_value { (T : Trace) → SizedAs T a sizes.now refs.now → Permitted T schedule.now
        → result.0 ≡ stores_of T (marks_of marks.now) (held T schedule.now) }
    ensures result_bound { result.0 < 2 ^ 44 }
{
    let mut flags = [false; Sheet::MAX_SEGS];
    let mut load = LoadUnits(0);
    for (t, entry) in refs.iter().enumerate() {
        let i = *entry as usize;
        if i < sizes.len() {
            let m = modified(schedule, t, i, flags[i]);
            load = load.plus(stored(a, sizes[i], marks[t], m));
            flags[i] = marks[t] | m;
        }
    }
    load
}
