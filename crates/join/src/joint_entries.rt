// The entries of two sheets on the same clock: whether both touch in one step, and the entries of the joint sheet.
// What these are is written in specs/ of crate `joint` and in specs/inner.
ghost use Rattle.std.specs.Prelude.{◌≡◌, ℕ, ◌≤◌, max, length, get_or};
ghost use Rattle.model.specs.Sheets.{idle, most_segs, most_steps};
ghost use Rattle.model.specs.Values.{idles, padded};
ghost use Rattle.joint.specs.Joint.{both_touch, joint_entry};
ghost use Rattle.join.specs.inner.Entries.{IsEntry, entries_of};

use model::Sheet;

// The entry of a step, idle beyond the last.
fn entry_at(refs: &[u16], t: usize) -> u16
    ensures { result ≡ get_or refs.now t idle }
{
    refs.get(t).copied().unwrap_or(Sheet::IDLE)
}

// Whether both touch in one step: beyond the last of either none does.
pub fn both_touch(xs: &[u16], ys: &[u16]) -> bool
    ensures { result ≡ both_touch xs.now ys.now (max (length xs.now) (length ys.now)) }
{
    xs.iter()
        .zip(ys)
        .any(|(x, y)| *x != Sheet::IDLE && *y != Sheet::IDLE)
}

// The entry of a step of the joint sheet, where the first has n segments.
fn joint_entry(n: u16, x: u16, y: u16) -> u16
    requires { (n ≤ most_segs) × IsEntry y }
    ensures { result ≡ joint_entry n x y }
{
    if x != Sheet::IDLE {
        x
    } else if y != Sheet::IDLE {
        n + y
    } else {
        Sheet::IDLE
    }
}

// The entries of the joint sheet, step by step on the same clock.
pub fn joint_touches(n: u16, xs: &[u16], ys: &[u16], steps: usize) -> [u16; Sheet::MAX_STEPS]
    requires { (n ≤ most_segs) × (steps ≤ most_steps) × ((t : ℕ) → IsEntry (get_or ys.now t idle)) }
    ensures { result ≡ padded (entries_of n xs.now ys.now steps) (idles most_steps) }
{
    let mut touches = [Sheet::IDLE; Sheet::MAX_STEPS];
    for t in 0..steps {
        touches[t] = joint_entry(n, entry_at(xs, t), entry_at(ys, t));
    }
    touches
}
