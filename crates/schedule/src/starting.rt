// The segments held before step 1 as the bytes of a step: those of the warm segments.
ghost use Rattle.std.specs.Prelude.{◌≡◌};
ghost use Rattle.schedule.specs.inner.Starting.{start_mask};

use crate::Schedule;
use crate::writing::masked;
use model::Sheet;

// The bytes of a step that holds the warm segments, and no other.
pub fn start_mask(warm: &[u16]) -> [u8; Schedule::STEP_BYTES]
    ensures { result ≡ start_mask warm.now }
{
    let mut mask = [0; Schedule::STEP_BYTES];
    for entry in warm {
        let i = *entry as usize;
        if i < Sheet::MAX_SEGS {
            mask[i / 8] = masked(mask[i / 8], 1 << (i % 8), 255);
        }
    }
    mask
}
