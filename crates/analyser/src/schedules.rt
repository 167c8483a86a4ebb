// The optimal schedule of a row, that of a sheet of form 4, and the price of a schedule handed in.
// What each call answers is written in specs/Schedules.antt.
ghost use Rattle.std.specs.Prelude.{◌≡◌};
ghost use Rattle.model.specs.Places.{PlaceLeft};
ghost use Rattle.analyser.specs.Schedules.{modified_result, pricing, schedule_result};

use crate::sheets;
use model::{Price, Refusal};

// The optimal schedule of a row into a lent place, then its old contents: refused with the sheet's refusals, where form 4 is 4, 7, 11.
pub fn optimal_schedule(bytes: &[u8], row: usize, out: &mut [u8]) -> Result<usize, Refusal>
    ensures { PlaceLeft (schedule_result bytes.now row) out.old out.new result }
{
    let sheet = read_sheet::read_forms(bytes, 1, 3)?;
    sheet_schedules::sheet_plan(sheet, row, out)
}

// The schedule of the least total with stores counted of a row into a lent place, then its old contents: refused with the sheet's refusals,
// where any form but 4 is 4, 7, 11.
pub fn modified_schedule(bytes: &[u8], row: usize, out: &mut [u8]) -> Result<usize, Refusal>
    ensures { PlaceLeft (modified_result bytes.now row) out.old out.new result }
{
    let sheet = read_sheet::read_forms(bytes, 4, 4)?;
    sheet_schedules::sheet_plan(sheet, row, out)
}

// The price of a schedule at a row, in form 4 with stores counted: refused with the sheet's refusals, 7, 8, 9, 10.
pub fn price(bytes: &[u8], row: usize, schedule: &[u8]) -> Result<Price, Refusal>
    ensures { result ≡ pricing bytes.now row schedule.now }
{
    let sheet = sheets::read(bytes)?;
    sheet_schedules::sheet_price(sheet, row, schedule)
}
