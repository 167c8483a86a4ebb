// A recorder in one list of numbers, which the calls change in place. Whatever numbers stand there, each function returns.
// The list is written in specs/RecorderList.antt.
ghost use Rattle.std.specs.Prelude.{◌≡◌, ◌↔◌, IsTrue, List, ◌+◌, ◌*◌, ◌≤◌, ◌<◌, min, get_or, set, Ok};
ghost use Rattle.model.specs.Sheets.{SheetValue, Valid, most_segs, most_steps};
ghost use Rattle.model.specs.declared.PriceRow.{PriceRow};
ghost use Rattle.buckets.specs.FirstRow.{last_bucket};
ghost use Rattle.buckets.specs.inner.Pass.{Limited};
ghost use Rattle.buckets.specs.inner.Search.{retained, touch_bucket, Priceable};
ghost use Rattle.recorder.specs.Recorders.{recorder_of, appended, taken, with_idle, refs_verdict};
ghost use Rattle.recorder.specs.Recorders.{touch_verdict, touch_all_verdict, idle_verdict};
ghost use Rattle.c_lists.specs.RecorderList.{at_segs, at_steps, at_cost, at_volume, at_sums, list_length, list_of, short_in, bucket_at};
ghost use Rattle.c_lists.specs.RecorderList.{recorder_at, Changed};
ghost use Rattle.c_lists.specs.inner.InPlace.{places_in, RowsIn, touch_in, with_filed, Room, IsTaken};

use crate::record_numbers::kind_of;
use crate::tables::{bucket_at, store_bucket};
use buckets::pass::Touch;
use buckets::search::{Prices, Reuse};
use buckets::{Bucket, Tally};
use model::{LoadUnits, MemoryUnits, PriceRow, Refusal};
use recorder::Recorder;

// Of a size, a price, a mark and a step 16 bits count.
const SHORT: u64 = 65_536;

// The number at a place, of which 16 bits count.
pub(crate) fn short(list: &[u64; Recorder::LIST], at: usize) -> u16
    requires { at < list_length }
    ensures { result ≡ short_in list.now at }
{
    (list[at] % SHORT) as u16
}

// The prices in all 64 places of the list, of which it counts some as rows.
fn prices_in(list: &[u64; Recorder::LIST]) -> Prices
    ensures { result ≡ places_in list.now }
{
    let mut rows = [PriceRow { h: 0, d: 0 }; Recorder::MAX_ROWS];
    for r in 0..Recorder::MAX_ROWS {
        rows[r] = PriceRow {
            h: short(list, Recorder::AT_H + r),
            d: short(list, Recorder::AT_D + r),
        };
    }
    Prices {
        count: Recorder::MAX_ROWS,
        rows,
    }
}

// The bucket of a touch: that of the first row that keeps a reuse, and else the last. All places are looked at: in a list put together by
// hand those beyond the rows may have prices too.
fn bucket_of(list: &[u64; Recorder::LIST], retention: Option<MemoryUnits>, swap: LoadUnits) -> usize
    requires { Priceable (retained retention) swap.0 }
    ensures within { result ≤ last_bucket }
    ensures exact { (rows : List PriceRow) → RowsIn list.now rows → result ≡ touch_bucket rows retention swap }
{
    match retention {
        Some(retention) => {
            let k = prices_in(list).first_kept(Reuse { retention, swap });
            if (k as u64) < list[Recorder::AT_ROWS] {
                k
            } else {
                Tally::LAST
            }
        }
        None => Tally::LAST,
    }
}

// The touch of a segment after so many steps, with its bucket.
fn touch_now(list: &[u64; Recorder::LIST], segment: usize, steps: u16) -> Touch
    requires { segment < most_segs }
    ensures within { Limited result }
    ensures exact { (rows : List PriceRow) → RowsIn list.now rows
        → result ≡ touch_in list.now rows segment steps }
{
    let kind = kind_of(list[Recorder::AT_KIND]);
    let a = list[Recorder::AT_A].min(255) as u8;
    let z = short(list, Recorder::AT_SIZES + segment);
    let mark = short(list, Recorder::AT_LAST + segment);
    let mut x = buckets::pass::touch_of(kind, a, z, mark, steps);
    x.bucket = bucket_of(list, x.retention, x.swap);
    x
}

// Where the sums of bucket k stand.
fn bucket_place(k: usize) -> usize
    requires { k ≤ last_bucket }
    ensures { result ≡ at_sums + 6 * k }
{
    Recorder::AT_SUMS + Bucket::SUMS * k
}

// Whether the sums of a bucket, Q and V leave room for a touch.
fn has_room(b: Bucket, cost: u64, volume: u64) -> bool
    ensures { IsTrue result ↔ Room b cost volume }
{
    recorder::has_room(b) && cost <= recorder::ROOM && volume <= recorder::ROOM
}

// Puts a touch into its bucket, Q and V, where they leave room; a list put together by hand may leave none, and stays as it was.
fn file(list: &mut [u64; Recorder::LIST], x: Touch)
    requires { Limited x }
    ensures { Room (bucket_at list.old x.bucket) (get_or list.old at_cost 0)
        (get_or list.old at_volume 0) → list.new ≡ with_filed list.old x }
{
    let cost = list[Recorder::AT_COST];
    let volume = list[Recorder::AT_VOLUME];
    let at = bucket_place(x.bucket);
    let b = bucket_at(list, at);
    if has_room(b, cost, volume) {
        let unit = model::unit_cost(kind_of(list[Recorder::AT_KIND]), x.size);
        store_bucket(buckets::pass::add_touch(b, x), list, at);
        list[Recorder::AT_COST] = cost + unit.0;
        list[Recorder::AT_VOLUME] = volume + u64::from(x.size);
    }
}

// Takes one reference after so many steps: its touch, its mark and one step more.
fn take(list: &mut [u64; Recorder::LIST], segment: usize, steps: usize)
    requires { (segment < most_segs) × (steps < most_steps) }
    ensures { IsTaken list.old segment steps list.new }
{
    let step = steps as u64 + 1;
    let x = touch_now(list, segment, steps as u16);
    file(list, x);
    list[Recorder::AT_LAST + segment] = step;
    list[Recorder::AT_STEPS] = step;
}

// Takes all references, each of which would be accepted after those before it.
fn take_all(list: &mut [u64; Recorder::LIST], refs: &[u16])
    requires { refs_verdict (min (get_or list.old at_segs 0) most_segs) (get_or list.old at_steps 0) refs.now ≡ Ok tt }
    ensures { (v : SheetValue) → Valid v → list.old ≡ list_of (recorder_of v)
        → list.new ≡ list_of (recorder_of (appended v refs.now)) }
{
    let steps = list[Recorder::AT_STEPS] as usize;
    for (t, i) in refs.iter().enumerate() {
        take(list, usize::from(*i), steps + t);
    }
}

// Takes one reference: 4 for a segment not below segs, then 13 where there are 2,048 steps. Refused, the list stays as it was.
pub fn touch(list: &mut [u64; Recorder::LIST], segment: u64) -> Result<(), Refusal>
    ensures verdict { result ≡ touch_verdict (recorder_at list.old) segment }
    ensures changed { Changed (λ R. touch_verdict R segment) (λ v. taken v segment) list.old list.new }
{
    let segs = list[Recorder::AT_SEGS].min(Recorder::MAX_SEGS as u64);
    let steps = list[Recorder::AT_STEPS];
    recorder::taking::touch_verdict(segs as usize, steps as usize, segment as usize)?;
    take(list, segment as usize, steps as usize);
    Ok(())
}

// Takes all references, or none: refused for the first that would be refused, with 4 or 13, the list stays as it was.
pub fn touch_all(list: &mut [u64; Recorder::LIST], refs: &[u16]) -> Result<(), Refusal>
    ensures verdict { result ≡ touch_all_verdict (recorder_at list.old) refs.now }
    ensures changed { Changed (λ R. touch_all_verdict R refs.now) (λ v. appended v refs.now)
        list.old list.new }
{
    let segs = list[Recorder::AT_SEGS].min(Recorder::MAX_SEGS as u64);
    let steps = list[Recorder::AT_STEPS];
    recorder::taking::acceptable(refs, segs as usize, steps as usize)?;
    take_all(list, refs);
    Ok(())
}

// Takes one step without a touch: 13 where there are 2,048 steps. Refused, the list stays as it was.
pub fn idle(list: &mut [u64; Recorder::LIST]) -> Result<(), Refusal>
    ensures { (result ≡ idle_verdict (recorder_at list.old))
        × Changed idle_verdict with_idle list.old list.new
        × (idle_verdict (recorder_at list.old) ≡ Ok tt
        → list.new ≡ set list.old at_steps (get_or list.old at_steps 0 + 1)) }
{
    let steps = list[Recorder::AT_STEPS];
    recorder::taking::idle_verdict(steps as usize)?;
    list[Recorder::AT_STEPS] = steps + 1;
    Ok(())
}
