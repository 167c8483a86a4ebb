// wsocc of an accepted sheet at every window from 1 to the number of its steps, by the window recursion, into a lent place.
// What is answered, and what the recursion is, is written in crate `windows`; nothing is assumed.
#![tactic(auto)]

mod window_pass;

ghost use Rattle.std.specs.Prelude.{◌≡◌};
ghost use Rattle.model.specs.Places.{PlaceLeft};
ghost use Rattle.model.specs.Standing.{Standing};
ghost use Rattle.model.specs.Values.{value_of};
ghost use Rattle.windows.specs.Answers.{time_zero, windows_verdict, windows_for};

use model::{Kind, Refusal, Sheet};

// Whether the kind is time and a is 0: 28.
fn time_zero(kind: Kind, a: u8) -> Result<(), Refusal>
    ensures { result ≡ time_zero kind a }
{
    match (kind, a) {
        (Kind::Time, 0) => Ok(()),
        _ => Err(Refusal::NotTimeZero),
    }
}

// Whether an accepted sheet has windows: 28, then 26, then 27.
fn windows_verdict(s: Sheet) -> Result<(), Refusal>
    requires { Standing s }
    ensures { result ≡ windows_verdict (value_of s).head }
{
    let head = s.head;
    let segs = head.segs;
    let time = time_zero(head.kind, head.a);
    let ones = lru_curve::frames::ones_verdict(&head.sizes[..segs], head.warm);
    time.and(ones)
}

// wsocc of an accepted sheet at the windows 1, 2, .., steps at the head of a lent place; what stands beyond them stays: 28, 26, 27, 11.
pub fn sheet_windows(s: Sheet, out: &mut [u64]) -> Result<usize, Refusal>
    requires { Standing s }
    ensures { PlaceLeft (windows_for (value_of s)) out.old out.new result }
{
    let segs = s.head.segs;
    let steps = s.steps;
    windows_verdict(s)?;
    window_pass::windows(&s.head.sizes[..segs], &s.touches[..steps], out)
}
