// Which segments the steps of a schedule hold, segment by segment and 64 of them as one number; before step 1 the warm ones are held.
// What is held is written in specs/.
ghost use Rattle.std.specs.Prelude.{◌≡◌, ℕ, ◌+◌, ◌*◌, ◌/◌, ◌%◌, ◌≤◌, ◌<◌, length, get_or};
ghost use Rattle.model.specs.Schedules.{bit};
ghost use Rattle.pricing.specs.inner.Held.{start_bit, held_of};

use crate::byte_words::joined;
use schedule::{Run, Schedule};

// A schedule handed in, the run that it is for, and what is held before step 1: segment i at bit i % 64 of number i / 64.
#[derive(Clone, Copy)]
pub struct Handed<'a> {
    pub run: Run<'a>,
    pub start: [u64; 4],
    pub schedule: &'a [u8],
}

// The bytes of the start mask as four numbers.
pub fn start_words(mask: &[u8]) -> [u64; 4]
    requires { length mask.now ≡ 32 }
    ensures whole { length result ≡ 4 }
    ensures bits { (i : ℕ) → i < 256 → start_bit result i ≡ bit (get_or mask.now (i / 8) 0) (i % 8) }
{
    [
        joined(mask, 0),
        joined(mask, 8),
        joined(mask, 16),
        joined(mask, 24),
    ]
}

impl Handed<'_> {
    // Bits 64 × m to 64 × m + 63 of step t, counted from 1, as one number: before step 1 those of the start set.
    pub fn word_at(&self, t: usize, m: usize) -> u64
        requires { (32 * t ≤ length self.now.schedule.now) × (m < 4) × (length self.now.start ≡ 4) }
        ensures { (k : ℕ) → k < 64 → bit result k ≡ held_of self.now.start self.now.schedule.now t (64 * m + k) }
    {
        if t == 0 {
            return self.start[m];
        }
        joined(self.schedule, Schedule::STEP_BYTES * (t - 1) + 8 * m)
    }

    // Whether segment i is held in step t, counted from 1: before step 1 a warm one is.
    pub fn holds(&self, t: usize, i: usize) -> bool
        requires { (32 * t ≤ length self.now.schedule.now) × (i < 256) × (length self.now.start ≡ 4) }
        ensures { result ≡ held_of self.now.start self.now.schedule.now t i }
    {
        if 0 < t {
            return schedule::reading::holds(self.schedule, t - 1, i);
        }
        (self.start[i / 64] >> (i % 64)) % 2 == 1
    }
}
