// The margin of one reference of an accepted sheet at one of its rows.
// What is answered, and what a margin is, is written in crate `model`; nothing is assumed.
#![tactic(auto)]

ghost use Rattle.std.specs.Prelude.{◌≡◌, ℕ, ◌≤◌, ◌<◌, length, get_or};
ghost use Rattle.model.specs.Sheets.{SheetValue, most_steps, listed, run_of, trace_of, row_at, RunWithin};
ghost use Rattle.model.specs.Traces.{Trace, unreferenced};
ghost use Rattle.model.specs.Values.{value_of};
ghost use Rattle.model.specs.Standing.{Standing};
ghost use Rattle.model.specs.Margins.{touch_margin, margin_for};
ghost use Rattle.margin.specs.inner.Times.{time_of, PlaceFound};

use model::{Amount, Kind, PriceRow, Refusal, Sheet};

// Whether a segment is one of the warm ones: it counts as touched at step 0.
fn is_warm(warm: &[u16], segment: u16) -> bool
    ensures { result ≡ listed warm.now segment }
{
    warm.contains(&segment)
}

// The unreferenced time of a segment after t steps, in every run with these entries: the steps since its last touch, which is looked for
// from the last step back; that of a warm segment begins at step 0. None where it was not touched before.
fn unreferenced_time(warm: bool, segment: u16, refs: &[u16], t: usize) -> Option<u16>
    requires { (t ≤ length refs.now) × (t ≤ most_steps) }
    ensures { (T : Trace) → T.entries ≡ refs.now → segment < length T.sizes → T.start segment ≡ warm
        → result ≡ time_of (unreferenced T t segment) }
{
    for i in (0..t).rev() {
        if refs[i] == segment {
            return Some((t - i - 1) as u16);
        }
    }
    warm.then_some(t as u16)
}

// The margin of the touch at place t, at a row of every sheet with this run: 15 where it is the first touch of a segment that is not warm.
// It takes the parts of a head: of the head it would have to be said too that its counts are within its arrays.
fn touch_margin(
    kind: Kind,
    a: u8,
    row: PriceRow,
    sizes: &[u16],
    warm: &[u16],
    refs: &[u16],
    t: usize,
) -> Result<i64, Refusal>
    requires run_within { RunWithin (run_of kind a sizes.now warm.now refs.now) }
    requires t_in_bounds { (t < length refs.now) × (get_or refs.now t 0 < length sizes.now) }
    ensures { (v : SheetValue) (n : ℕ) → trace_of v ≡ run_of kind a sizes.now warm.now refs.now
        → row_at v n ≡ row → result ≡ touch_margin v n t }
{
    let segment = refs[t];
    let before = unreferenced_time(is_warm(warm, segment), segment, refs, t);
    let time = before.ok_or(Refusal::FirstTouch)?;
    let z = sizes[segment as usize];
    let retained = model::retention_cost(kind, z, time).priced(row.d);
    let swapped = model::swap_cost(a, z).priced(row.h);
    Ok(model::margin(retained, swapped))
}

// The place of the n-th reference, counted from 1, in every run with these entries and so many segments; none where there are fewer.
fn reference_place(segs: usize, refs: &[u16], n: usize) -> Option<usize>
    requires { 1 ≤ n }
    ensures { (T : Trace) → T.entries ≡ refs.now → length T.sizes ≡ segs → PlaceFound T n result }
{
    let mut left = n;
    for (t, &entry) in refs.iter().enumerate() {
        if (entry as usize) < segs {
            if left == 1 {
                return Some(t);
            }
            left -= 1;
        }
    }
    None
}

// The margin of the n-th reference of an accepted sheet, counted from 1, at a row: 7, then 14, then 15.
pub fn sheet_margin(s: Sheet, row: usize, reference: usize) -> Result<i64, Refusal>
    requires { Standing s }
    ensures { result ≡ margin_for (value_of s) row reference }
{
    let head = s.head;
    if head.rows <= row {
        return Err(Refusal::NoSuchRow);
    }
    if reference == 0 {
        return Err(Refusal::NoSuchReference);
    }
    let refs = &s.touches[..s.steps];
    let t = reference_place(head.segs, refs, reference).ok_or(Refusal::NoSuchReference)?;
    let sizes = &head.sizes[..head.segs];
    let warm = &head.holds[..head.warm];
    touch_margin(head.kind, head.a, head.prices[row], sizes, warm, refs, t)
}
