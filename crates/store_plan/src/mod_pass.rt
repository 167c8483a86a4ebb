// Modified segments: what a pass over the references finds of the touches at a row, and what the modifying ones add to opttotal. What they
// add is written in crate `stores`.
pub mod touching;

ghost use Rattle.std.specs.Prelude.{◌≡◌};
ghost use Rattle.model.specs.Sheets.{marks_of};
ghost use Rattle.schedule.specs.inner.Runs.{trace};
ghost use Rattle.store_plan.specs.inner.Decisions.{Markable, FoundIn};

use model::{PriceRow, Priced, Sheet};
use schedule::Run;
use touching::{Decision, touch};

// For each step what is found of its touch, and what all modifying touches add to opttotal: modtotal less opttotal.
#[derive(Clone, Copy)]
pub struct Found {
    pub decisions: [Decision; Sheet::MAX_STEPS],
    pub added: Priced,
}

// The pass over the references, from the warm segments on.
pub(crate) fn find(run: &Run, row: PriceRow, marks: &[bool]) -> Found
    requires { Markable (trace run.now) marks.now }
    ensures { FoundIn (trace run.now) (marks_of marks.now) row result }
{
    let none = Decision {
        kept: false,
        joined: false,
    };
    let mut decisions = [none; Sheet::MAX_STEPS];
    let mut last = model::start_table(run.warm);
    let mut since = [None; Sheet::MAX_SEGS];
    let mut added: u64 = 0;
    for (t, entry) in run.refs.iter().enumerate() {
        let i = *entry as usize;
        if i < run.sizes.len() {
            let z = run.sizes[i];
            let x = touch(
                run.kind, run.a, row, z, last[i], since[i], t as u16, marks[t],
            );
            decisions[t] = x.decision;
            added += x.added.0;
            since[i] = x.since;
            last[i] = t as u16 + 1;
        }
    }
    Found {
        decisions,
        added: Priced(added),
    }
}
