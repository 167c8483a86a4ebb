// Every operating point of a sheet for other languages.
// What is returned and left is written in specs/.
ghost use Rattle.analyser.specs.Curves.{points_result};
ghost use Rattle.exports.specs.Exported.{PlaceCall};

use crate::lent_calls::tell;

// Every operating point as four numbers, R, w, optmem and load, and how many numbers: the sheet's refusals, 11.
#[unsafe(no_mangle)]
pub extern "C" fn segtrace_points(sheet: &[u8], out: &mut [u64], written: &mut u64) -> u64
    ensures { PlaceCall (points_result sheet.now) out.old out.new
        written.old written.new result }
{
    tell(analyser::curves::points(sheet, out), written)
}
