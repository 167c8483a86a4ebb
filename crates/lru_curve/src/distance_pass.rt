// The misses with every number of frames in one pass: a recency list, and how many touches there are at each stack distance.
// What they are is written in crate `replacement`. Sizes and references pass as lent u16 slices, as document 01 asks.
ghost use Rattle.std.specs.Prelude.{◌≡◌, ◌≤◌, length, take};
ghost use Rattle.model.specs.Sheets.{most_segs, most_steps};
ghost use Rattle.lru_curve.specs.inner.Left.{EveryRun, touch_run, ByDistances};
ghost use Rattle.lru_curve.specs.inner.Entries.{walk_of, moved};
ghost use Rattle.lru_curve.specs.inner.Passes.{most_entries, Counted};

use crate::recency_list::Walk;
use model::Sheet;

// One entry more than there are segments, so that a first touch always has room in the list.
const ENTRIES: usize = Sheet::MAX_SEGS + 1;

// What the pass counts: the touches at each distance, that at distance p + 1 at place p, the first touches, and the entries looked at.
#[derive(Clone, Copy)]
pub struct Counts {
    pub at: [u64; Sheet::MAX_SEGS],
    pub first: u64,
    pub looked: u64,
}

// Brings x to the front of the first n entries, and gives the walk up to it. Where x was not among them the list is one longer.
fn bring(list: &mut [u16; ENTRIES], n: usize, x: u16) -> Walk
    requires { (n ≤ most_segs) × (length list.old ≡ most_entries) }
    ensures value { result ≡ walk_of x (take n list.old) }
    ensures list_after { list.new ≡ moved result.before x list.old }
{
    let w = crate::recency_list::walk_to(list, n, x);
    crate::recency_list::put_first(list, w.before, x);
    w
}

// One pass over the touches with a recency list, the first n entries of `list`.
fn distances(sizes: &[u16], refs: &[u16]) -> Counts
    requires { (length sizes.now ≤ most_segs) × (length refs.now ≤ most_steps) }
    ensures { Counted (touch_run sizes.now refs.now) result }
{
    let mut list = [0; ENTRIES];
    let mut n = 0;
    let mut at = [0; Sheet::MAX_SEGS];
    let mut looked = 0;
    for &x in refs {
        if usize::from(x) < sizes.len() {
            let w = bring(&mut list, n, x);
            let p = w.before;
            looked += w.looked;
            if p < n {
                at[p] += 1;
            } else {
                n += 1;
            }
        }
    }
    Counts {
        at,
        first: n as u64,
        looked,
    }
}

// The misses with 1, 2, .., segs frames, to the place lent; the result is the number of entries looked at. Idle steps, whose entry is no
// segment, play no part.
pub fn curve(sizes: &[u16], refs: &[u16], place: &mut [u64]) -> u64
    requires { (length sizes.now ≤ most_segs) × (length refs.now ≤ most_steps) × (length sizes.now ≤ length place.old) }
    ensures { EveryRun sizes.now refs.now (λ T. ByDistances T place.old place.new result) }
{
    let counts = distances(sizes, refs);
    let at = counts.at;
    let mut misses = counts.first;
    for k in (0..sizes.len()).rev() {
        place[k] = misses;
        misses += at[k];
    }
    counts.looked
}
