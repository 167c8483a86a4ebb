// The recorder: a sheet's head that takes references and idle steps one by one, and hands out the figures of a row at any moment.
// What a recorder stands for is written in specs/Recorders.antt; nothing is assumed.
#![tactic(auto)]

mod guards;
pub mod reading;
mod row_guards;
pub mod taking;

ghost use Rattle.std.specs.Prelude.{◌≡◌};
ghost use Rattle.model.specs.Sheets.{SheetValue, Valid};
ghost use Rattle.model.specs.Values.{sheet_of};
ghost use Rattle.recorder.specs.inner.Passes.{begun};
ghost use Rattle.recorder.specs.Recorders.{recorder_of, empty_recorder, started, Touched, TouchedAll, Rested, Figured};

use buckets::{Bucket, Tally};
pub use guards::{ROOM, has_room};
use model::{Head, MemoryUnits, Refusal, RowFigures, Sheet};

// A recorder by value: the head of its sheet, how many steps were taken, the table of last touches, the buckets, Q and V.
#[derive(Clone, Copy)]
pub struct Recorder {
    pub head: Head,
    pub steps: usize,
    pub last: [u16; Recorder::MAX_SEGS],
    pub buckets: [Bucket; Tally::BUCKETS],
    pub cost: MemoryUnits,
    pub volume: u64,
}

// Its limits, which are those of the sheet that it stands for.
impl Recorder {
    // The most steps, 13 beyond them, segments and rows.
    pub const MAX_STEPS: usize = Sheet::MAX_STEPS;

    pub const MAX_SEGS: usize = Sheet::MAX_SEGS;

    pub const MAX_ROWS: usize = Sheet::MAX_ROWS;
    // The largest a and the largest size, as wide as the sums.
    pub const MAX_A: u64 = Sheet::MAX_A as u64;

    pub const MAX_SIZE: u64 = Sheet::MAX_SIZE as u64;
}

// A recorder as one list of numbers, as programs in C hold it: where each part stands, and how long the list is.
impl Recorder {
    // Kind (0 for time, 1 for space), a, the counts of segments, rows and warm segments, the steps taken, Q and V.
    pub const AT_KIND: usize = 0;

    pub const AT_A: usize = 1;

    pub const AT_SEGS: usize = 2;

    pub const AT_ROWS: usize = 3;

    pub const AT_WARM: usize = 4;

    pub const AT_STEPS: usize = 5;

    pub const AT_COST: usize = 6;

    pub const AT_VOLUME: usize = 7;
    // The sizes, the prices h and then d of the rows, the warm segments, the table of last touches, the sums of the buckets.
    pub const AT_SIZES: usize = 8;

    pub const AT_H: usize = Recorder::AT_SIZES + Recorder::MAX_SEGS;

    pub const AT_D: usize = Recorder::AT_H + Recorder::MAX_ROWS;

    pub const AT_HOLDS: usize = Recorder::AT_D + Recorder::MAX_ROWS;

    pub const AT_LAST: usize = Recorder::AT_HOLDS + Recorder::MAX_SEGS;

    pub const AT_SUMS: usize = Recorder::AT_LAST + Recorder::MAX_SEGS;

    pub const LIST: usize = Recorder::AT_SUMS + Bucket::SUMS * Tally::BUCKETS;
}

// What a touch answers, of one reference or of several, and an idle step: the recorder with them taken, or the refusal and the recorder
// as it was.
#[derive(Clone, Copy)]
pub struct TouchAnswer {
    pub verdict: Result<(), Refusal>,
    pub recorder: Recorder,
}

// A head, and no step taken yet: its warm segments count as touched.
fn begin(head: Head) -> Recorder
    ensures { result ≡ begun head }
{
    let count = head.warm.min(Recorder::MAX_SEGS);
    let last = model::start_table(&head.holds[..count]);
    Recorder {
        head,
        steps: 0,
        last,
        buckets: buckets::pass::empty_buckets(),
        cost: MemoryUnits(0),
        volume: 0,
    }
}

impl Recorder {
    // No segments, no rows and no warm segments: what a refused start hands back.
    pub fn empty() -> Recorder
        ensures { result ≡ empty_recorder }
    {
        begin(Head::empty())
    }

    // From a sheet's head and its warm segments, with no steps.
    pub fn start(sheet: Sheet) -> Recorder
        ensures { (v : SheetValue) → Valid v → sheet ≡ sheet_of v → result ≡ recorder_of (started v) }
    {
        begin(sheet.head)
    }

    // Takes one reference: 4 for a segment not below segs, then 13 where there are 2,048 steps.
    pub fn touch(self, segment: usize) -> TouchAnswer
        ensures { Touched self segment result }
    {
        let segs = self.head.segs.min(Recorder::MAX_SEGS);
        let verdict = taking::touch_verdict(segs, self.steps, segment);
        match verdict {
            Ok(()) => TouchAnswer {
                verdict,
                recorder: taking::take_one(self, segment),
            },
            Err(_) => TouchAnswer {
                verdict,
                recorder: self,
            },
        }
    }

    // Takes all references, or none: refused for the first that would be refused, with 4 or 13, the recorder comes back as it was.
    pub fn touch_all(self, refs: &[u16]) -> TouchAnswer
        ensures { TouchedAll self refs.now result }
    {
        let segs = self.head.segs.min(Recorder::MAX_SEGS);
        let verdict = taking::acceptable(refs, segs, self.steps);
        match verdict {
            Ok(()) => TouchAnswer {
                verdict,
                recorder: taking::take_all(self, refs),
            },
            Err(_) => TouchAnswer {
                verdict,
                recorder: self,
            },
        }
    }

    // Takes one step without a touch: 13 where there are 2,048 steps.
    pub fn idle(mut self) -> TouchAnswer
        ensures { Rested self result }
    {
        let verdict = taking::idle_verdict(self.steps);
        if let Ok(()) = verdict {
            self.steps += 1;
        }
        TouchAnswer {
            verdict,
            recorder: self,
        }
    }

    // The figures of a row at this moment: 7 for no such row.
    pub fn figures(self, row: usize) -> Result<RowFigures, Refusal>
        ensures { Figured self row result }
    {
        if self.head.rows.min(Recorder::MAX_ROWS) <= row {
            return Err(Refusal::NoSuchRow);
        }
        Ok(reading::row_now(self, row))
    }
}
