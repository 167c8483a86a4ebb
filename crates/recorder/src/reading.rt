// The figures of a row at this moment: the end intervals from the table of last touches, the sums of the buckets up to the row, and the
// swap costs of the warm segments.
ghost use Rattle.std.specs.Prelude.{◌≡◌, ◌<◌, min};
ghost use Rattle.model.specs.Sheets.{SheetValue, Valid, trace_of, most_rows};
ghost use Rattle.buckets.specs.Buckets.{tally_of};
ghost use Rattle.model.specs.RowAnswers.{figures_at};
ghost use Rattle.recorder.specs.Recorders.{recorder_of};

use crate::Recorder;
use crate::guards::{sum_first, with_start};
use crate::row_guards::{row_of, start_now};
use buckets::search::Prices;
use buckets::{Bucket, Tally};
use figures::row_sums::Sums;
use model::RowFigures;

// The buckets of the end intervals at this moment.
fn ends_now(recorder: Recorder) -> [Bucket; Tally::BUCKETS]
    ensures { (v : SheetValue) → Valid v → recorder ≡ recorder_of v → result ≡ (tally_of v.head.rows (trace_of v)).ends }
{
    let head = recorder.head;
    let rows = head.rows.min(Recorder::MAX_ROWS);
    let segs = head.segs.min(Recorder::MAX_SEGS);
    let steps = recorder.steps.min(Recorder::MAX_STEPS) as u16;
    let prices = Prices::of(head.prices, rows);
    let sizes = &head.sizes[..segs];
    buckets::pass::ends(head.kind, head.a, &prices, sizes, &recorder.last, steps)
}

// The figures of a row of the recorder.
pub fn row_now(recorder: Recorder, row: usize) -> RowFigures
    requires { row < min recorder.head.rows most_rows }
    ensures { (v : SheetValue) → Valid v → recorder ≡ recorder_of v → result ≡ figures_at v row }
{
    let ended = ends_now(recorder);
    let head = recorder.head;
    let touches = sum_first(recorder.buckets, Tally::BUCKETS);
    let sums = Sums {
        cost: recorder.cost,
        volume: recorder.volume,
        all: with_start(touches, start_now(head)),
        kept: sum_first(recorder.buckets, row + 1),
        ends: sum_first(ended, row + 1),
    };
    row_of(head.kind, head.a, head.prices[row], recorder.steps, sums)
}
