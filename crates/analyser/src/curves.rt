// Lists over all frames, windows and thresholds: the misses of least-recently-used replacement, by stack distances and by simulation, wsocc
// at every window, and every operating point.
// What each call answers is written in specs/Curves.antt.
ghost use Rattle.model.specs.Places.{PlaceLeft};
ghost use Rattle.analyser.specs.Curves.{LruLeft, lru_plain_result, points_result, windows_result};

use crate::sheets;
use model::Refusal;
use replacement::Curve;

// The misses with 1, 2, .., segs frames into a lent place, then its old contents, and the entries of the recency list that were looked at:
// refused with the sheet's refusals, 26, 27, 11.
pub fn lru(bytes: &[u8], out: &mut [u64]) -> Result<Curve, Refusal>
    ensures { LruLeft bytes.now out.old out.new result }
{
    let sheet = sheets::read(bytes)?;
    lru_curve::sheet_curve(sheet, out)
}

// The same misses by simulating each number of frames in turn: refused with the sheet's refusals, 26, 27, 11.
pub fn lru_plain(bytes: &[u8], out: &mut [u64]) -> Result<usize, Refusal>
    ensures { PlaceLeft (lru_plain_result bytes.now) out.old out.new result }
{
    let sheet = sheets::read(bytes)?;
    lru_curve::sheet_curve_plain(sheet, out)
}

// wsocc at the windows 1, 2, .., steps into a lent place, then its old contents: refused with the sheet's refusals, 28, 26, 27, 11.
pub fn windows(bytes: &[u8], out: &mut [u64]) -> Result<usize, Refusal>
    ensures { PlaceLeft (windows_result bytes.now) out.old out.new result }
{
    let sheet = sheets::read(bytes)?;
    window_list::sheet_windows(sheet, out)
}

// Every operating point as four numbers, R, w, optmem and load, into a lent place, then its old contents: refused with the sheet's
// refusals, 11. A place for 4 × 2,048 numbers always suffices.
pub fn points(bytes: &[u8], out: &mut [u64]) -> Result<usize, Refusal>
    ensures { PlaceLeft (points_result bytes.now) out.old out.new result }
{
    let sheet = sheets::read(bytes)?;
    point_list::sheet_points(sheet, out)
}
