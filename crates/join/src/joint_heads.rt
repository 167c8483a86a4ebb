// The heads of two sheets: whether kind, a and row lines are the same, and the head of the joint sheet.
// What these are is written in specs/ of crate `joint` and in specs/inner.
ghost use Rattle.std.specs.Prelude.{◌≡◌, ◌≤◌, length};
ghost use Rattle.model.specs.Sheets.{most_segs, most_rows};
ghost use Rattle.model.specs.Values.{zeros, zero_rows, padded, head_of, head_value_of};
ghost use Rattle.joint.specs.Joint.{same_heads, joint_head};
ghost use Rattle.joint.specs.inner.Moved.{moved_after};
ghost use Rattle.join.specs.inner.Heads.{Movable, HeadsFit};

use model::{Head, PriceRow, Sheet};

// Whether kind, a and row lines are the same.
pub fn same_heads(p: &Head, q: &Head) -> bool
    requires { (p.now.rows ≤ most_rows) × (q.now.rows ≤ most_rows) }
    ensures { result ≡ same_heads (head_value_of p.now) (head_value_of q.now) }
{
    p.kind == q.kind && p.a == q.a && p.prices[..p.rows] == q.prices[..q.rows]
}

// Numbers and then others, which are moved by n, at the front of zeros.
fn joint_numbers(xs: &[u16], n: u16, ys: &[u16]) -> [u16; Sheet::MAX_SEGS]
    requires { Movable xs.now n ys.now }
    ensures { result ≡ padded (moved_after xs.now n ys.now) (zeros most_segs) }
{
    let mut all = [0; Sheet::MAX_SEGS];
    all[..xs.len()].copy_from_slice(xs);
    for (k, y) in ys.iter().enumerate() {
        all[xs.len() + k] = n + *y;
    }
    all
}

// Rows, at the front of rows 0/0.
fn first_rows(prices: &[PriceRow]) -> [PriceRow; Sheet::MAX_ROWS]
    requires { length prices.now ≤ most_rows }
    ensures { result ≡ padded prices.now (zero_rows most_rows) }
{
    let mut rows = [PriceRow { h: 0, d: 0 }; Sheet::MAX_ROWS];
    rows[..prices.len()].copy_from_slice(prices);
    rows
}

// The head of the joint sheet.
pub fn joint_head(p: &Head, q: &Head) -> Head
    requires { HeadsFit p.now q.now }
    ensures { result ≡ head_of (joint_head (head_value_of p.now) (head_value_of q.now)) }
{
    Head {
        segs: p.segs + q.segs,
        sizes: joint_numbers(&p.sizes[..p.segs], 0, &q.sizes[..q.segs]),
        prices: first_rows(&p.prices[..p.rows]),
        warm: p.warm + q.warm,
        holds: joint_numbers(&p.holds[..p.warm], p.segs as u16, &q.holds[..q.warm]),
        ..*p
    }
}
