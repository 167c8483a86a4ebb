// Every operating point of an accepted sheet into a lent place.
// What is answered, and what the points are, is written in crate `points`; nothing is assumed.
#![tactic(auto)]

mod point_sort;
mod point_sums;

ghost use Rattle.model.specs.Places.{PlaceLeft};
ghost use Rattle.model.specs.Standing.{Standing};
ghost use Rattle.model.specs.Values.{value_of};
ghost use Rattle.points.specs.Answers.{points_for};

use model::{Refusal, Sheet};

// Every operating point of an accepted sheet as four numbers, R, w, optmem and load, at the head of a lent place; what stands beyond them
// stays: 11. A place for 4 × 2,048 numbers always suffices.
pub fn sheet_points(s: Sheet, out: &mut [u64]) -> Result<usize, Refusal>
    requires { Standing s }
    ensures { PlaceLeft (points_for (value_of s)) out.old out.new result }
{
    let head = s.head;
    let segs = head.segs;
    let sizes = head.sizes;
    let warm = head.warm;
    let holds = head.holds;
    let steps = s.steps;
    point_sums::points(
        head.kind,
        head.a,
        &sizes[..segs],
        &holds[..warm],
        &s.touches[..steps],
        out,
    )
}
