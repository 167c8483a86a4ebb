// The recorder's calls, on a recorder that the caller holds as lists of numbers. Whatever numbers stand there, each call returns.
// What each returns and leaves is written in specs/.
ghost use Rattle.recorder.specs.Recorders.{Touched, TouchedAll};
ghost use Rattle.c_lists.specs.Recorders.{lists};
ghost use Rattle.exports.specs.Recording.{StartCall, TouchCall, IdleCall, FiguresCall};

use buckets::{Bucket, Tally};
use model::{RowFigures, Sheet};

// A recorder with the kind, a, sizes, rows and warm segments of a sheet and no steps: the sheet's refusals.
#[unsafe(no_mangle)]
pub extern "C" fn segtrace_recorder_start(
    sheet: &[u8],
    head: &mut [u64; 5],
    counts: &mut [u64; 3],
    sizes: &mut [u16; Sheet::MAX_SEGS],
    holds: &mut [u16; Sheet::MAX_SEGS],
    h: &mut [u16; Sheet::MAX_ROWS],
    d: &mut [u16; Sheet::MAX_ROWS],
    last: &mut [u16; Sheet::MAX_SEGS],
    sums: &mut [u64; Bucket::SUMS * Tally::BUCKETS],
) -> u64
    ensures { StartCall sheet.now
        (lists head.old counts.old sizes.old holds.old
        h.old d.old last.old sums.old)
        (lists head.new counts.new sizes.new holds.new
        h.new d.new last.new sums.new) result }
{
    crate::lent_recorder::start(sheet, head, counts, sizes, holds, h, d, last, sums)
}

// Takes one reference: 4, 13.
#[unsafe(no_mangle)]
pub extern "C" fn segtrace_recorder_touch(
    head: &[u64; 5],
    counts: &mut [u64; 3],
    sizes: &[u16; Sheet::MAX_SEGS],
    holds: &[u16; Sheet::MAX_SEGS],
    h: &[u16; Sheet::MAX_ROWS],
    d: &[u16; Sheet::MAX_ROWS],
    last: &mut [u16; Sheet::MAX_SEGS],
    sums: &mut [u64; Bucket::SUMS * Tally::BUCKETS],
    segment: u64,
) -> u64
    ensures { TouchCall (λ R a. Touched R segment a)
        (lists head.now counts.old sizes.now holds.now
        h.now d.now last.old sums.old)
        (lists head.now counts.new sizes.now holds.now
        h.now d.now last.new sums.new) result }
{
    crate::lent_recorder::touch(head, counts, sizes, holds, h, d, last, sums, segment)
}

// Takes one step without a touch, by the counts alone: 13.
#[unsafe(no_mangle)]
pub extern "C" fn segtrace_recorder_idle(counts: &mut [u64; 3]) -> u64
    ensures { IdleCall counts.old counts.new result }
{
    match c_lists::record_numbers::idle(counts) {
        Ok(()) => 0,
        Err(why) => why.number(),
    }
}

// Takes all references, or none where one would be refused: 4, 13.
#[unsafe(no_mangle)]
pub extern "C" fn segtrace_recorder_touch_all(
    head: &[u64; 5],
    counts: &mut [u64; 3],
    sizes: &[u16; Sheet::MAX_SEGS],
    holds: &[u16; Sheet::MAX_SEGS],
    h: &[u16; Sheet::MAX_ROWS],
    d: &[u16; Sheet::MAX_ROWS],
    last: &mut [u16; Sheet::MAX_SEGS],
    sums: &mut [u64; Bucket::SUMS * Tally::BUCKETS],
    segments: &[u16],
) -> u64
    ensures { TouchCall (λ R a. TouchedAll R segments.now a)
        (lists head.now counts.old sizes.now holds.now
        h.now d.now last.old sums.old)
        (lists head.now counts.new sizes.now holds.now
        h.now d.now last.new sums.new) result }
{
    crate::lent_recorder::touch_all(head, counts, sizes, holds, h, d, last, sums, segments)
}

// The figures of a row at this moment: 7.
#[unsafe(no_mangle)]
pub extern "C" fn segtrace_recorder_figures(
    head: &[u64; 5],
    counts: &[u64; 3],
    sizes: &[u16; Sheet::MAX_SEGS],
    holds: &[u16; Sheet::MAX_SEGS],
    h: &[u16; Sheet::MAX_ROWS],
    d: &[u16; Sheet::MAX_ROWS],
    last: &[u16; Sheet::MAX_SEGS],
    sums: &[u64; Bucket::SUMS * Tally::BUCKETS],
    row: u64,
    figures: &mut [u64; RowFigures::ITEMS],
) -> u64
    ensures { FiguresCall
        (lists head.now counts.now sizes.now holds.now
        h.now d.now last.now sums.now)
        row figures.old figures.new result }
{
    crate::lent_recorder::figures(head, counts, sizes, holds, h, d, last, sums, row, figures)
}
