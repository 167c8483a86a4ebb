// The schedule of the least total with stores counted: which touches it holds their segments for, decided in a pass over the references and
// one back from the last step, and writing it. What it holds is written in crate `stores`; nothing is assumed.
#![tactic(auto)]

pub mod mod_pass;
pub mod modtotals;
pub mod store_price;

ghost use Rattle.std.specs.Prelude.{◌≡◌, cond, ◌++◌, ◌*◌, ◌≤◌, length, drop};
ghost use Rattle.model.specs.Sheets.{marks_of};
ghost use Rattle.model.specs.Traces.{Trace, segs, steps};
ghost use Rattle.schedule.specs.inner.Runs.{trace};
ghost use Rattle.stores.specs.Modtotal.{mod_schedule};
ghost use Rattle.store_plan.specs.inner.Decisions.{Markable, Foldable, Folded, Decides};

use mod_pass::{Found, find};
use model::{PriceRow, Sheet};
use schedule::Run;

// Whether the next modifying touch of a segment, from a touch of it on, belongs to the stay of the one before.
fn flag(marked: bool, joined: bool, next: bool) -> bool
    ensures { result ≡ cond marked joined next }
{
    if marked { joined } else { next }
}

// The pass from the last step to the first, which keeps a flag of each segment.
fn fold(segments: usize, refs: &[u16], marks: &[bool], found: &Found) -> [bool; Sheet::MAX_STEPS]
    requires { Foldable segments refs.now marks.now }
    ensures { (T : Trace) → segs T ≡ segments → T.entries ≡ refs.now → Folded T (marks_of marks.now) found.now result }
{
    let mut flags = [false; Sheet::MAX_SEGS];
    let mut on = [false; Sheet::MAX_STEPS];
    for t in (0..refs.len()).rev() {
        let i = refs[t] as usize;
        if i < segments {
            let d = found.decisions[t];
            let f = flag(marks[t], d.joined, flags[i]);
            on[t] = d.kept | f;
            flags[i] = f;
        }
    }
    on
}

// For each touch whether it finds its segment held in the schedule of the least total.
pub fn mod_decisions(run: &Run, row: PriceRow, marks: &[bool]) -> [bool; Sheet::MAX_STEPS]
    requires { Markable (trace run.now) marks.now }
    ensures { Decides (trace run.now) (marks_of marks.now) row result }
{
    let found = find(run, row, marks);
    fold(run.sizes.len(), run.refs, marks, &found)
}

// The schedule of the least total at the head of a lent place, whatever stood there; what stands beyond it stays.
pub fn write_modified(run: &Run, row: PriceRow, marks: &[bool], out: &mut [u8])
    requires markable { Markable (trace run.now) marks.now }
    requires refs_in_bounds { 32 * steps (trace run.now) ≤ length out.old }
    ensures { out.new ≡ mod_schedule (trace run.now)
        (marks_of marks.now) row.h row.d ++ drop (32 * steps (trace run.now)) out.old }
{
    let decisions = mod_decisions(run, row, marks);
    let n = run.refs.len();
    schedule::writing::write_decided(run.sizes.len(), run.refs, &decisions[..n], out);
}
