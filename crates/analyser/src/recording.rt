// The recorder's public calls: start from a sheet's bytes, take references, read the figures of a row.
// What a recorder stands for is written in crate `recorder`.
ghost use Rattle.std.specs.Prelude.{◌≡◌};
ghost use Rattle.recorder.specs.Recorders.{Touched, TouchedAll, Rested, Figured};
ghost use Rattle.analyser.specs.Recording.{no_recorder, start_answer};

use model::{Refusal, RowFigures};
use recorder::{Recorder, TouchAnswer};

// No recorder, and why.
fn no_recorder(why: Refusal) -> TouchAnswer
    ensures { result ≡ no_recorder why }
{
    TouchAnswer {
        verdict: Err(why),
        recorder: Recorder::empty(),
    }
}

// A recorder from a sheet's kind, a, sizes and rows, with no steps; refused with the sheet's refusals, where form 4 is 4, and then with no
// segments and no rows.
pub fn start(bytes: &[u8]) -> TouchAnswer
    ensures { result ≡ start_answer bytes.now }
{
    match read_sheet::read_forms(bytes, 1, 3) {
        Err(why) => no_recorder(why),
        Ok(sheet) => TouchAnswer {
            verdict: Ok(()),
            recorder: Recorder::start(sheet),
        },
    }
}

// Takes one reference; refused with 4, then 13, the recorder comes back as it was.
pub fn touch(recorder: Recorder, segment: usize) -> TouchAnswer
    ensures { Touched recorder segment result }
{
    recorder.touch(segment)
}

// Takes one step without a touch; refused with 13, the recorder comes back as it was.
pub fn idle(recorder: Recorder) -> TouchAnswer
    ensures { Rested recorder result }
{
    recorder.idle()
}

// The figures of a row at this moment; refused with 7.
pub fn figures(recorder: Recorder, row: usize) -> Result<RowFigures, Refusal>
    ensures { Figured recorder row result }
{
    recorder.figures(row)
}

// Takes all references, or none: refused with 4 or 13, for the first that would be refused, the recorder comes back as it was.
pub fn touch_all(recorder: Recorder, refs: &[u16]) -> TouchAnswer
    ensures { TouchedAll recorder refs.now result }
{
    recorder.touch_all(refs)
}
