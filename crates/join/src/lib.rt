// Two sheets as one on the same clock, for two aligners in one memory.
// What the joint sheet is, and which sheets do not join, is written in specs/ of crate `joint`; nothing is assumed.
#![tactic(auto)]

mod joint_entries;
mod joint_heads;

ghost use Rattle.std.specs.Prelude.{◌≡◌, ℕ, ◌≤◌, max, length, get_or};
ghost use Rattle.model.specs.Sheets.{idle, most_steps};
ghost use Rattle.model.specs.Standing.{Standing};
ghost use Rattle.model.specs.Values.{value_of};
ghost use Rattle.sheet.specs.Answers.{answer_of};
ghost use Rattle.joint.specs.Joining.{join_of};
ghost use Rattle.join.specs.inner.Entries.{IsEntry};
ghost use Rattle.join.specs.inner.Heads.{HeadsFit};
ghost use Rattle.join.specs.inner.Parts.{joint_sheet_of};

use model::{Head, Refusal, Sheet};

// The form of a joint sheet.
const FORM: u8 = 3;

// The joint sheet by the heads and the entries of two sheets.
fn joint_sheet(p: &Head, q: &Head, xs: &[u16], ys: &[u16]) -> Sheet
    requires { HeadsFit p.now q.now × (length xs.now ≤ most_steps) × (length ys.now ≤ most_steps)
        × ((t : ℕ) → IsEntry (get_or ys.now t idle)) }
    ensures { result ≡ joint_sheet_of p.now q.now xs.now ys.now }
{
    let steps = xs.len().max(ys.len());
    Sheet {
        form: FORM,
        head: joint_heads::joint_head(p, q),
        steps,
        touches: joint_entries::joint_touches(p.segs as u16, xs, ys, steps),
        marked: 0,
        marks: [false; Sheet::MAX_STEPS],
    }
}

// Two accepted sheets as one: 20 where kind, a or a row line differs, then 21 where both touch in one step, then 22 where they have more
// than 256 segments together.
pub fn join(first: Sheet, second: Sheet) -> Result<Sheet, Refusal>
    requires { Standing first × Standing second }
    ensures { result ≡ answer_of (join_of (value_of first) (value_of second)) }
{
    let p = &first.head;
    let q = &second.head;
    if !joint_heads::same_heads(p, q) {
        return Err(Refusal::HeadsDiffer);
    }
    let xs = &first.touches[..first.steps];
    let ys = &second.touches[..second.steps];
    if joint_entries::both_touch(xs, ys) {
        return Err(Refusal::BothTouch);
    }
    if Sheet::MAX_SEGS < p.segs + q.segs {
        return Err(Refusal::TooManySegments);
    }
    Ok(joint_sheet(p, q, xs, ys))
}
