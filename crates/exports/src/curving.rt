// The misses of least-recently-used replacement for other languages.
// What is returned and left is written in specs/.
ghost use Rattle.analyser.specs.Curves.{lru_plain_result};
ghost use Rattle.exports.specs.Curving.{LruCall};
ghost use Rattle.exports.specs.Exported.{PlaceCall};

use crate::lent_calls::tell;

// The misses with 1, 2, .., segs frames, by stack distances, how many numbers, and the entries of the recency list that were looked at: the
// sheet's refusals, 26, 27, 11.
#[unsafe(no_mangle)]
pub extern "C" fn segtrace_lru(
    sheet: &[u8],
    out: &mut [u64],
    written: &mut u64,
    looked: &mut u64,
) -> u64
    ensures { LruCall sheet.now out.old out.new
        written.old written.new looked.old looked.new result }
{
    crate::lent_calls::lru(sheet, out, written, looked)
}

// The same misses by simulating each number of frames in turn: the sheet's refusals, 26, 27, 11.
#[unsafe(no_mangle)]
pub extern "C" fn segtrace_lru_plain(sheet: &[u8], out: &mut [u64], written: &mut u64) -> u64
    ensures { PlaceCall (lru_plain_result sheet.now) out.old out.new
        written.old written.new result }
{
    tell(analyser::curves::lru_plain(sheet, out), written)
}
