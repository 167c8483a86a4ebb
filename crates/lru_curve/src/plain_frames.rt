// The misses with every number of frames, each number in turn: one memory of k frames, touch by touch.
// What they are is written in crate `replacement`.
ghost use Rattle.std.specs.Prelude.{◌≡◌, ◌≤◌, ◌<◌, length, MatchOption};
ghost use Rattle.model.specs.Sheets.{most_segs, most_steps};
ghost use Rattle.replacement.specs.Memory.{lru_simulated};
ghost use Rattle.lru_curve.specs.inner.Left.{EveryRun, touch_run, BySimulation};
ghost use Rattle.lru_curve.specs.inner.Used.{frame_in, at_front};

use model::Sheet;

// Which of the frames in use has segment x.
fn frame_of(used: &[u16], x: u16) -> Option<usize>
    ensures { MatchOption result (length used.now ≤ frame_in x used.now)
        (λ p. (p < length used.now) × (p ≡ frame_in x used.now)) }
{
    used.iter().position(|y| *y == x)
}

// Moves what frame p has to the front, and what the frames before it have one further.
fn to_front(frames: &mut [u16; Sheet::MAX_SEGS], p: usize)
    requires { (p < most_segs) × (length frames.old ≡ most_segs) }
    ensures { frames.new ≡ at_front p frames.old }
{
    frames[..=p].rotate_right(1);
}

// The misses of one memory of k frames, the first n of `frames` in use, that of the latest touch first.
fn simulate(sizes: &[u16], refs: &[u16], k: usize) -> u64
    requires { (length refs.now ≤ most_steps) × (1 ≤ k) × (k ≤ most_segs) }
    ensures { result ≡ lru_simulated (touch_run sizes.now refs.now) k }
{
    let mut frames = [0; Sheet::MAX_SEGS];
    let mut n = 0;
    let mut misses = 0;
    for &x in refs {
        if usize::from(x) < sizes.len() {
            match frame_of(&frames[..n], x) {
                Some(p) => to_front(&mut frames, p),
                None => {
                    misses += 1;
                    n = k.min(n + 1);
                    frames[n - 1] = x;
                    to_front(&mut frames, n - 1);
                }
            }
        }
    }
    misses
}

// The misses with 1, 2, .., segs frames, to the place lent. Idle steps, whose entry is no segment, play no part.
pub fn curve(sizes: &[u16], refs: &[u16], place: &mut [u64])
    requires { (length sizes.now ≤ most_segs) × (length refs.now ≤ most_steps) × (length sizes.now ≤ length place.old) }
    ensures { EveryRun sizes.now refs.now (λ T. BySimulation T place.old place.new) }
{
    for k in 0..sizes.len() {
        place[k] = simulate(sizes, refs, k + 1);
    }
}
