// The import of din traces: the pages that the lines of a trace touch as the segments of a sheet, with the rows of a head that was read.
// What the answer means is written in specs/; nothing is assumed.
#![tactic(auto)]

mod lines;
mod pages;

ghost use Rattle.std.specs.Prelude.{◌≡◌, ◌≤◌, replicate};
ghost use Rattle.model.specs.Sheets.{most_segs};
ghost use Rattle.model.specs.Values.{zeros, padded, head_of, head_value_of};
ghost use Rattle.sheet.specs.Answers.{answer_of};
ghost use Rattle.din.specs.Import.{imported};

use model::{Head, Kind, Refusal, Sheet};

// Sizes of n segments, each 1, at the front of zeros.
fn ones(n: usize) -> [u16; Sheet::MAX_SEGS]
    requires { n ≤ most_segs }
    ensures { result ≡ padded (replicate n 1) (zeros most_segs) }
{
    let mut sizes = [0; Sheet::MAX_SEGS];
    sizes[..n].fill(1);
    sizes
}

// The sheet that stands for a trace, with the rows of a head that was read, or the refusal.
pub fn import(bytes: &[u8], k: u64, rows: Head) -> Result<Sheet, Refusal>
    requires { rows ≡ head_of (head_value_of rows) }
    ensures { result ≡ answer_of (imported k bytes.now (head_value_of rows).rows) }
{
    let found = pages::trace(bytes, k)?;
    let sizes = ones(found.segs);
    let touches = found.touches;
    let head = Head {
        kind: Kind::Time,
        a: 0,
        segs: found.segs,
        sizes,
        warm: 0,
        holds: [0; Sheet::MAX_SEGS],
        ..rows
    };
    Ok(Sheet {
        form: 1,
        head,
        steps: found.steps,
        touches,
        marked: 0,
        marks: [false; Sheet::MAX_STEPS],
    })
}
