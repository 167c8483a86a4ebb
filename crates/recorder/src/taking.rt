// Taking references: one, or several in one loop over local arrays; and the verdict on an idle step.
ghost use Rattle.std.specs.Prelude.{◌≡◌, ◌<◌, min, [], length, Ok};
ghost use Rattle.model.specs.Sheets.{SheetValue, Valid, most_steps, most_segs};
ghost use Rattle.buckets.specs.inner.Pass.{Passable};
ghost use Rattle.recorder.specs.inner.Passes.{Continued};
ghost use Rattle.recorder.specs.Recorders.{recorder_of, appended, taken, room_verdict, ref_verdict, refs_verdict, touch_all_verdict};

use crate::{Recorder, guards};
use buckets::Tally;
use buckets::pass::Passed;
use buckets::search::Prices;
use model::{Head, MemoryUnits, Refusal};

// The recorder with one more reference.
pub fn take_one(mut recorder: Recorder, segment: usize) -> Recorder
    requires { (segment < min recorder.head.segs most_segs) × (recorder.steps < most_steps) }
    ensures { (v : SheetValue) → Valid v → recorder ≡ recorder_of v → result ≡ recorder_of (taken v segment) }
{
    let head = recorder.head;
    let rows = head.rows.min(Recorder::MAX_ROWS);
    let z = head.sizes[segment];
    let t = recorder.steps;
    let mut x = buckets::pass::touch_of(head.kind, head.a, z, recorder.last[segment], t as u16);
    x.bucket = buckets::search::bucket(head.prices, rows, x.retention, x.swap);
    recorder.buckets[x.bucket] = guards::file(recorder.buckets[x.bucket], x);
    recorder.last[segment] = (t + 1) as u16;
    recorder.steps = t + 1;
    recorder.cost = MemoryUnits(guards::more(recorder.cost.0, model::unit_cost(head.kind, z).0));
    recorder.volume = guards::more(recorder.volume, u64::from(z));
    recorder
}

// The verdict on a reference after `count` steps: 4 for a segment not below segs, then that on a step.
pub fn touch_verdict(segs: usize, count: usize, segment: usize) -> Result<(), Refusal>
    ensures { result ≡ ref_verdict segs count segment }
{
    if segs <= segment {
        return Err(Refusal::OutOfRange);
    }
    idle_verdict(count)
}

// The verdict on an idle step after so many steps: 13 where there are 2,048.
pub fn idle_verdict(steps: usize) -> Result<(), Refusal>
    ensures { result ≡ room_verdict steps }
{
    if Recorder::MAX_STEPS <= steps {
        return Err(Refusal::RecorderFull);
    }
    Ok(())
}

// The verdict on references after `count` steps: that of the first that would be refused.
pub fn acceptable(refs: &[u16], segs: usize, count: usize) -> Result<(), Refusal>
    ensures { result ≡ refs_verdict segs count refs.now }
{
    for (n, i) in refs.iter().enumerate() {
        if segs <= usize::from(*i) {
            return Err(Refusal::OutOfRange);
        }
        if Recorder::MAX_STEPS - n <= count {
            return Err(Refusal::RecorderFull);
        }
    }
    Ok(())
}

// What the pass has after these references, from what it has after `count` steps.
fn pass_on(head: Head, from: Passed, count: usize, refs: &[u16]) -> Passed
    requires { Passable from (min head.segs most_segs) count (length refs.now) }
    ensures { Continued head from count refs.now result }
{
    let rows = head.rows.min(Recorder::MAX_ROWS);
    let segs = head.segs.min(Recorder::MAX_SEGS);
    let prices = Prices::of(head.prices, rows);
    let sizes = &head.sizes[..segs];
    buckets::pass::references(head.kind, head.a, &prices, sizes, from, count, refs)
}

// The recorder with all references. One put together by hand, whose sums leave no room, stays as it was.
pub fn take_all(recorder: Recorder, refs: &[u16]) -> Recorder
    requires { touch_all_verdict recorder refs.now ≡ Ok tt }
    ensures none { refs.now ≡ [] → result ≡ recorder }
    ensures all { (v : SheetValue) → Valid v → recorder ≡ recorder_of v → result ≡ recorder_of (appended v refs.now) }
{
    let buckets = recorder.buckets;
    let last = recorder.last;
    if refs.is_empty() || !guards::roomy(buckets) {
        return recorder;
    }
    let head = recorder.head;
    let Passed { buckets, last } = pass_on(head, Passed { buckets, last }, recorder.steps, refs);
    let all = guards::sum_first(buckets, Tally::BUCKETS);
    let cost = figures::row_sums::by_kind(head.kind, all.count, all.volume);
    Recorder {
        head,
        steps: recorder.steps + refs.len(),
        last,
        buckets,
        cost: MemoryUnits(cost),
        volume: all.volume,
    }
}
