// The recorder's calls on a recorder that the caller holds as lists of numbers, as plain functions that the root hands on. Whatever
// numbers stand there, each call returns.
// What each returns and leaves is written in specs/Recording.antt.
ghost use Rattle.recorder.specs.Recorders.{Touched, TouchedAll};
ghost use Rattle.c_lists.specs.Recorders.{lists};
ghost use Rattle.exports.specs.Recording.{StartCall, TouchCall, FiguresCall};

use buckets::{Bucket, Tally};
use c_lists::record_numbers::{recorder_of, store_head, store_taken};
use model::{RowFigures, Sheet};

// A recorder with the kind, a, sizes, rows and warm segments of a sheet and no steps: the sheet's refusals.
pub fn start(
    sheet: &[u8],
    head: &mut [u64; 5],
    counts: &mut [u64; 3],
    sizes: &mut [u16; Sheet::MAX_SEGS],
    holds: &mut [u16; Sheet::MAX_SEGS],
    h: &mut [u16; Sheet::MAX_ROWS],
    d: &mut [u16; Sheet::MAX_ROWS],
    last: &mut [u16; Sheet::MAX_SEGS],
    sums: &mut [u64; Bucket::SUMS * Tally::BUCKETS],
) -> u64
    ensures { StartCall sheet.now
        (lists head.old counts.old sizes.old holds.old
        h.old d.old last.old sums.old)
        (lists head.new counts.new sizes.new holds.new
        h.new d.new last.new sums.new) result }
{
    let answer = analyser::recording::start(sheet);
    let r = answer.recorder;
    match answer.verdict {
        Ok(()) => {
            store_head(r, head, sizes, holds, h, d);
            store_taken(r, counts, last, sums);
            0
        }
        Err(why) => why.number(),
    }
}

// Takes one reference: 4, 13.
pub fn touch(
    head: &[u64; 5],
    counts: &mut [u64; 3],
    sizes: &[u16; Sheet::MAX_SEGS],
    holds: &[u16; Sheet::MAX_SEGS],
    h: &[u16; Sheet::MAX_ROWS],
    d: &[u16; Sheet::MAX_ROWS],
    last: &mut [u16; Sheet::MAX_SEGS],
    sums: &mut [u64; Bucket::SUMS * Tally::BUCKETS],
    segment: u64,
) -> u64
    ensures { TouchCall (λ R a. Touched R segment a)
        (lists head.now counts.old sizes.now holds.now
        h.now d.now last.old sums.old)
        (lists head.now counts.new sizes.now holds.now
        h.now d.now last.new sums.new) result }
{
    let r = recorder_of(head, counts, sizes, holds, h, d, last, sums);
    let answer = analyser::recording::touch(r, segment as usize);
    let next = answer.recorder;
    match answer.verdict {
        Ok(()) => {
            store_taken(next, counts, last, sums);
            0
        }
        Err(why) => why.number(),
    }
}

// Takes all references, or none where one would be refused: 4, 13.
pub fn touch_all(
    head: &[u64; 5],
    counts: &mut [u64; 3],
    sizes: &[u16; Sheet::MAX_SEGS],
    holds: &[u16; Sheet::MAX_SEGS],
    h: &[u16; Sheet::MAX_ROWS],
    d: &[u16; Sheet::MAX_ROWS],
    last: &mut [u16; Sheet::MAX_SEGS],
    sums: &mut [u64; Bucket::SUMS * Tally::BUCKETS],
    segments: &[u16],
) -> u64
    ensures { TouchCall (λ R a. TouchedAll R segments.now a)
        (lists head.now counts.old sizes.now holds.now
        h.now d.now last.old sums.old)
        (lists head.now counts.new sizes.now holds.now
        h.now d.now last.new sums.new) result }
{
    let r = recorder_of(head, counts, sizes, holds, h, d, last, sums);
    let answer = analyser::recording::touch_all(r, segments);
    let after = answer.recorder;
    match answer.verdict {
        Ok(()) => {
            store_taken(after, counts, last, sums);
            0
        }
        Err(why) => why.number(),
    }
}

// The figures of a row at this moment: 7.
pub fn figures(
    head: &[u64; 5],
    counts: &[u64; 3],
    sizes: &[u16; Sheet::MAX_SEGS],
    holds: &[u16; Sheet::MAX_SEGS],
    h: &[u16; Sheet::MAX_ROWS],
    d: &[u16; Sheet::MAX_ROWS],
    last: &[u16; Sheet::MAX_SEGS],
    sums: &[u64; Bucket::SUMS * Tally::BUCKETS],
    row: u64,
    figures: &mut [u64; RowFigures::ITEMS],
) -> u64
    ensures { FiguresCall
        (lists head.now counts.now sizes.now holds.now
        h.now d.now last.now sums.now)
        row figures.old figures.new result }
{
    let r = recorder_of(head, counts, sizes, holds, h, d, last, sums);
    match analyser::recording::figures(r, row as usize) {
        Ok(found) => {
            *figures = c_lists::of_row(found);
            0
        }
        Err(why) => why.number(),
    }
}
