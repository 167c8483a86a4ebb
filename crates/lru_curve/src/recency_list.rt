// A recency list, the segments touched so far with the most recent first: the walk up to a segment, and a segment put first.
// What the list is, is written in crate `replacement`.
ghost use Rattle.std.specs.Prelude.{◌≡◌, ◌≤◌, ◌<◌, length, take};
ghost use Rattle.lru_curve.specs.inner.Entries.{walk_of, moved};

// What a walk up to a segment gives: how many entries stand before it, all of them where the list does not have it, and how many entries
// were looked at. The place is no Option, as in both cases it is the one from which the list moves when the segment is put first.
#[derive(Clone, Copy)]
pub struct Walk {
    pub before: usize,
    pub looked: u64,
}

// How many entries are looked at in one turn, one after the other: fewer turns, the same entries.
const TURN: usize = 4;

// Looks at the entries one after the other, from the most recent up to x, or at all of them where x is not among them, and counts each as
// it looks at it.
fn walk_along(list: &[u16], x: u16) -> Walk
    ensures { result ≡ walk_of x list.now }
{
    let mut looked = 0;
    for (before, &entry) in list.iter().enumerate() {
        looked += 1;
        if entry == x {
            return Walk { before, looked };
        }
    }
    Walk {
        before: list.len(),
        looked,
    }
}

// The walk along the list up to x, a turn's entries and then the next turn's: whole turns while there are any, of a length that is known
// when this is compiled, and then what is left.
fn walk_turns(list: &[u16], x: u16) -> Walk
    ensures { result ≡ walk_of x list.now }
{
    let mut total: u64 = 0;
    let mut i: usize = 0;
    // It may end within a turn, and goes on by whole turns: no count over a range.
    while TURN <= list.len() - i {
        let end = i + TURN;
        let w = walk_along(&list[i..end], x);
        total += w.looked;
        if w.before < TURN {
            return Walk {
                before: i + w.before,
                looked: total,
            };
        }
        i = end;
    }
    let w = walk_along(&list[i..], x);
    Walk {
        before: i + w.before,
        looked: total + w.looked,
    }
}

// The walk along the first n entries up to x.
pub fn walk_to(list: &[u16], n: usize, x: u16) -> Walk
    requires { n ≤ length list.now }
    ensures { result ≡ walk_of x (take n list.now) }
{
    let first = &list[..n];
    walk_turns(first, x)
}

// Puts x first and moves the first p entries one further; entry p is given up.
pub fn put_first(list: &mut [u16], p: usize, x: u16)
    requires { p < length list.old }
    ensures { list.new ≡ moved p x list.old }
{
    list[..=p].rotate_right(1);
    list[0] = x;
}
