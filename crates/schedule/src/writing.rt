// Writing schedules: a pass over the references decides which touches are kept, and the steps are then written by the decisions from the
// last to the first, with a running set of the segments whose next touch is kept.
ghost use Rattle.std.specs.Prelude.{◌≡◌, cond, ◌++◌, ◌+◌, ◌*◌, ◌≤◌, ◌<◌, length, drop};
ghost use Rattle.std.proofs.Math.Seq.{paste};
ghost use Rattle.model.specs.Sheets.{most_segs, RunWithin};
ghost use Rattle.model.specs.Traces.{Trace, segs, steps};
ghost use Rattle.model.specs.Schedules.{optimal_schedule};
ghost use Rattle.model.specs.Decisions.{decided_schedule, decisions_of};
ghost use Rattle.schedule.specs.inner.Runs.{trace};
ghost use Rattle.schedule.specs.inner.Writing.{mask_table, masked, step_with, kept_by, KeptMarks};

use crate::reading::segment_of;
use crate::{Run, Schedule};
use model::{Amount, Kind, PriceRow, Sheet};

// The bytes of the table of masks: those of a step for each segment and for none.
const MASK_BYTES: usize = Schedule::STEP_BYTES * (Sheet::MAX_SEGS + 1);

// Whether a touch, after so many steps, of a segment of size z with that mark in the table of last touches is kept.
fn touch_kept(kind: Kind, a: u8, row: PriceRow, z: u16, mark: u16, steps: u16) -> bool
    ensures { result ≡ kept_by kind a row z mark steps }
{
    if mark <= steps {
        let held = model::retention_cost(kind, z, steps - mark).priced(row.d);
        model::kept(held, model::swap_cost(a, z).priced(row.h))
    } else {
        false
    }
}

// For each step whether its touch is kept: one pass over the references, from the warm segments on.
fn kept_marks(run: &Run, row: PriceRow) -> [bool; Sheet::MAX_STEPS]
    requires { RunWithin (trace run.now) }
    ensures { KeptMarks (trace run.now) row result }
{
    let mut marks = [false; Sheet::MAX_STEPS];
    let mut last = model::start_table(run.warm);
    for (t, entry) in run.refs.iter().enumerate() {
        let i = *entry as usize;
        if i < run.sizes.len() {
            marks[t] = touch_kept(run.kind, run.a, row, run.sizes[i], last[i], t as u16);
            last[i] = t as u16 + 1;
        }
    }
    marks
}

// For each segment the bytes of a step that holds this one alone.
fn mask_table() -> [u8; MASK_BYTES]
    ensures { result ≡ mask_table }
{
    let mut masks = [0; MASK_BYTES];
    for i in 0..Sheet::MAX_SEGS {
        masks[Schedule::STEP_BYTES * i + i / 8] = 1 << (i % 8);
    }
    masks
}

// The byte with its bits in `mask` replaced by those of `on`.
pub fn masked(byte: u8, mask: u8, on: u8) -> u8
    ensures { result ≡ masked byte mask on }
{
    byte - (byte & mask) + (mask & on)
}

// All bits, or none.
fn all_bits(on: bool) -> u8
    ensures { result ≡ cond on 255 0 }
{
    if on { 255 } else { 0 }
}

// One step: the bytes of `next` with segment i held go to `out` from `at` on, and in `next` i is held where `on` is 255, not where it is 0.
fn put_step(
    masks: &[u8; MASK_BYTES],
    i: usize,
    on: u8,
    at: usize,
    next: &mut [u8; Schedule::STEP_BYTES],
    out: &mut [u8],
)
    requires { (masks.now ≡ mask_table) × (i ≤ most_segs) × (length next.old ≡ 32) × (at + 32 ≤ length out.old) }
    ensures next_after { next.new ≡ step_with next.old i on }
    ensures out_after { out.new ≡ paste out.old at (step_with next.old i 255) 32 }
{
    for j in 0..Schedule::STEP_BYTES {
        let mask = masks[Schedule::STEP_BYTES * i + j];
        let byte = next[j];
        out[at + j] = masked(byte, mask, 255);
        next[j] = masked(byte, mask, on);
    }
}

// The schedule by decisions, one for each step, at the head of a lent place, whatever stood there; what stands beyond it stays. It is that
// of every run of so many segments and these references, whatever counts as touched before step 1 and whichever steps touch nothing.
pub fn write_decided(segments: usize, refs: &[u16], decisions: &[bool], out: &mut [u8])
    requires { (segments ≤ most_segs) × (length decisions.now ≡ length refs.now) × (32 * length refs.now ≤ length out.old) }
    ensures { (T : Trace) → segs T ≡ segments → T.entries ≡ refs.now
        → out.new ≡ decided_schedule T (decisions_of decisions.now)
        ++ drop (32 * length refs.now) out.old }
{
    let masks = mask_table();
    let mut next = [0; Schedule::STEP_BYTES];
    for t in (0..refs.len()).rev() {
        let i = segment_of(segments, refs[t]).unwrap_or(Sheet::MAX_SEGS);
        put_step(
            &masks,
            i,
            all_bits(decisions[t]),
            Schedule::STEP_BYTES * t,
            &mut next,
            out,
        );
    }
}

// The optimal schedule of a row at the head of a lent place, whatever stood there; what stands beyond it stays.
pub fn write_optimal(run: &Run, row: PriceRow, out: &mut [u8])
    requires run_within { RunWithin (trace run.now) }
    requires refs_in_bounds { 32 * steps (trace run.now) ≤ length out.old }
    ensures { out.new ≡ optimal_schedule (trace run.now) row.h row.d
        ++ drop (32 * steps (trace run.now)) out.old }
{
    let marks = kept_marks(run, row);
    let n = run.refs.len();
    write_decided(run.sizes.len(), run.refs, &marks[..n], out);
}
