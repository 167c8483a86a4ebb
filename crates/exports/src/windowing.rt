// The window recursion for other languages.
// What is returned and left is written in specs/.
ghost use Rattle.analyser.specs.Curves.{windows_result};
ghost use Rattle.exports.specs.Exported.{PlaceCall};

use crate::lent_calls::tell;

// wsocc at the windows 1, 2, .., steps, and how many numbers: the sheet's refusals, 28, 26, 27, 11.
#[unsafe(no_mangle)]
pub extern "C" fn segtrace_windows(sheet: &[u8], out: &mut [u64], written: &mut u64) -> u64
    ensures { PlaceCall (windows_result sheet.now) out.old out.new
        written.old written.new result }
{
    tell(analyser::curves::windows(sheet, out), written)
}
