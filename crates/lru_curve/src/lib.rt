// The misses of an accepted sheet with 1, 2, .., segs frames, by either engine, into a lent place.
// What is answered, and what the misses are, is written in crate `replacement`; nothing is assumed.
#![tactic(auto)]

mod distance_pass;
pub mod frames;
mod plain_frames;
mod recency_list;

ghost use Rattle.model.specs.Places.{PlaceLeft};
ghost use Rattle.model.specs.Standing.{Standing};
ghost use Rattle.model.specs.Values.{value_of};
ghost use Rattle.replacement.specs.Answers.{plain_for};
ghost use Rattle.lru_curve.specs.inner.Left.{CurveLeft};

use model::{Refusal, Sheet};
use replacement::Curve;

// The misses of an accepted sheet with 1, 2, .., segs frames into a lent place, by stack distances: 26, 27, 11.
pub fn sheet_curve(s: Sheet, out: &mut [u64]) -> Result<Curve, Refusal>
    requires { Standing s }
    ensures { CurveLeft (value_of s) out.old out.new result }
{
    let segs = s.head.segs;
    let steps = s.steps;
    let sizes = &s.head.sizes[..segs];
    frames::curve_verdict(sizes, s.head.warm, out.len())?;
    let looked = distance_pass::curve(sizes, &s.touches[..steps], out);
    Ok(Curve {
        length: segs,
        looked,
    })
}

// The same list, each number of frames simulated in turn: 26, 27, 11.
pub fn sheet_curve_plain(s: Sheet, out: &mut [u64]) -> Result<usize, Refusal>
    requires { Standing s }
    ensures { PlaceLeft (plain_for (value_of s)) out.old out.new result }
{
    let segs = s.head.segs;
    let steps = s.steps;
    let sizes = &s.head.sizes[..segs];
    frames::curve_verdict(sizes, s.head.warm, out.len())?;
    plain_frames::curve(sizes, &s.touches[..steps], out);
    Ok(segs)
}
