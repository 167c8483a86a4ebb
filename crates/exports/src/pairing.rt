// The call on two sheets: the two as one.
// What it returns and leaves is written in specs/ and in crate `analyser`.
ghost use Rattle.analyser.specs.Sheets.{join_result};
ghost use Rattle.exports.specs.Exported.{PlaceCall};

use crate::lent_calls::tell;

// Two sheets of form 2 or 3 as one of form 3, and its length: the first's refusals, then the second's, where form 1 is 4, 20, 21, 22, 11.
#[unsafe(no_mangle)]
pub extern "C" fn segtrace_join(
    first: &[u8],
    second: &[u8],
    out: &mut [u8],
    written: &mut u64,
) -> u64
    ensures { PlaceCall (join_result first.now second.now) out.old out.new
        written.old written.new result }
{
    tell(analyser::sheets::join(first, second, out), written)
}
