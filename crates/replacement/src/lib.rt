// Least-recently-used replacement: the misses for every number of frames, by stack distances and by simulating one memory, and how far
// the recency list is walked. Definitions and theorems, and the answer of the call by distances; nothing is assumed.
#![tactic(auto)]

ghost use Rattle.std.specs.Prelude.{◌≡◌};
ghost use Rattle.replacement.specs.Answers.{no_curve, curve_given};

use model::Refusal;

// What the call by distances writes and counts: the length of the list of misses, and the entries of the recency list looked at.
#[derive(Clone, Copy)]
pub struct Curve {
    pub length: usize,
    pub looked: u64,
}

impl Curve {
    // No list, and no entry looked at: what a refused call gives.
    pub fn zero() -> Curve
        ensures { result ≡ no_curve }
    {
        Curve {
            length: 0,
            looked: 0,
        }
    }

    // What an answer gives: no list, and no entry looked at, where the call is refused.
    pub fn given(answer: Result<Curve, Refusal>) -> Curve
        ensures { result ≡ curve_given answer }
    {
        answer.unwrap_or(Curve::zero())
    }
}
