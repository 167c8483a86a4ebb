// Calls on what they are lent, as plain functions that the root hands on. Each returns 0 or the number of the refusal; refused, it
// leaves all that it was lent as it was. Each call matches its answer for itself: all that differs is what it puts into which lent value,
// which a common function would take as a closure over the lent value.
// What each returns and leaves is written in specs/.
ghost use Rattle.std.specs.Prelude.{◌≡◌};
ghost use Rattle.model.specs.Refusals.{verdict_number};
ghost use Rattle.analyser.specs.Schedules.{pricing};
ghost use Rattle.analyser.specs.Figures.{size_answer};
ghost use Rattle.exports.specs.Curving.{LruCall};
ghost use Rattle.exports.specs.Exported.{or_old, itself, price_list, rows_result, PlaceCall};

use model::{Refusal, RowFigures};

// What a call that wrote into a place returns, and its length into `written`, unless it was refused.
pub fn tell(answer: Result<usize, Refusal>, written: &mut u64) -> u64
    ensures { (result ≡ verdict_number answer) × (written.new ≡ or_old itself answer written.old) }
{
    match answer {
        Ok(length) => {
            *written = length as u64;
            0
        }
        Err(why) => why.number(),
    }
}

// The misses with 1, 2, .., segs frames, by stack distances, how many numbers, and the entries of the recency list that were looked at: the
// sheet's refusals, 26, 27, 11.
pub fn lru(sheet: &[u8], out: &mut [u64], written: &mut u64, looked: &mut u64) -> u64
    ensures { LruCall sheet.now out.old out.new
        written.old written.new looked.old looked.new result }
{
    match analyser::curves::lru(sheet, out) {
        Ok(curve) => {
            *looked = curve.looked;
            tell(Ok(curve.length), written)
        }
        Err(why) => tell(Err(why), written),
    }
}

// The figures of every row, 11 numbers each, one row after the other, and how many numbers: the sheet's refusals, 11.
pub fn all_figures(sheet: &[u8], out: &mut [u64], written: &mut u64) -> u64
    ensures { PlaceCall (rows_result sheet.now) out.old out.new
        written.old written.new result }
{
    match row_records::all_records(sheet, out.len() / RowFigures::ITEMS) {
        Ok(all) => {
            let end = c_lists::put_rows(all.figures, all.count, out);
            *written = end as u64;
            0
        }
        Err(why) => why.number(),
    }
}

// Memory, load and total of a schedule at a row, in form 4 with stores counted: the sheet's refusals, 7, 8, 9, 10.
pub fn price(sheet: &[u8], row: u64, schedule: &[u8], price: &mut [u64; 3]) -> u64
    ensures { (result ≡ verdict_number (pricing sheet.now row schedule.now))
        × (price.new ≡ or_old price_list (pricing sheet.now row schedule.now) price.old) }
{
    match analyser::schedules::price(sheet, row as usize, schedule) {
        Ok(found) => {
            *price = [found.memory.0, found.load.0, found.total];
            0
        }
        Err(why) => why.number(),
    }
}

// The lowest row with the least load among the rows with optmem within the ceiling: the sheet's refusals, 12.
pub fn size(sheet: &[u8], ceiling: u64, row: &mut u64) -> u64
    ensures { (result ≡ verdict_number (size_answer sheet.now ceiling))
        × (row.new ≡ or_old itself (size_answer sheet.now ceiling) row.old) }
{
    match analyser::figuring::size(sheet, ceiling) {
        Ok(found) => {
            *row = found as u64;
            0
        }
        Err(why) => why.number(),
    }
}
