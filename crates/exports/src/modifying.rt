// The schedule call of form 4 for other languages.
// What is returned and left is written in specs/.
ghost use Rattle.analyser.specs.Schedules.{modified_result};
ghost use Rattle.exports.specs.Exported.{PlaceCall};

use crate::lent_calls::tell;

// The schedule of the least total with stores counted of a row, and its length: the sheet's refusals, where any form but 4 is 4, 7, 11.
#[unsafe(no_mangle)]
pub extern "C" fn segtrace_modified_schedule(
    sheet: &[u8],
    row: u64,
    out: &mut [u8],
    written: &mut u64,
) -> u64
    ensures { PlaceCall (modified_result sheet.now row) out.old out.new
        written.old written.new result }
{
    tell(
        analyser::schedules::modified_schedule(sheet, row as usize, out),
        written,
    )
}
