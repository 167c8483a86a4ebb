// The call on a trace in the din text form: the trace as a sheet.
// What it returns and leaves is written in specs/ and in crate `analyser`.
ghost use Rattle.analyser.specs.Sheets.{import_result};
ghost use Rattle.exports.specs.Exported.{PlaceCall};

use crate::lent_calls::tell;

// The sheet of a trace with pages of 2 to the power k bytes and the rows of a given sheet, and its length: the given sheet's refusals, 23,
// 24, 25, 11.
#[unsafe(no_mangle)]
pub extern "C" fn segtrace_import_din(
    trace: &[u8],
    k: u64,
    sheet: &[u8],
    out: &mut [u8],
    written: &mut u64,
) -> u64
    ensures { PlaceCall (import_result trace.now k sheet.now) out.old out.new
        written.old written.new result }
{
    tell(analyser::sheets::import_din(trace, k, sheet, out), written)
}
