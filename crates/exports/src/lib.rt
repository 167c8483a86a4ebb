// The analyser's calls for programs in C and other languages, as include/segtrace.h declares them: on numbers, slices and lists of
// numbers. Each returns 0 or the number of the refusal; refused, it leaves all that it was lent as it was.
// What each returns and leaves is written in specs/; nothing is assumed.
#![tactic(auto)]

pub mod curving;
pub mod importing;
mod lent_calls;
mod lent_recorder;
pub mod modifying;
pub mod operating;
pub mod pairing;
pub mod recording;
pub mod windowing;

ghost use Rattle.std.specs.Prelude.{◌≡◌};
ghost use Rattle.model.specs.Refusals.{verdict_number};
ghost use Rattle.sheet.specs.Reading.{read_sheet};
ghost use Rattle.sheet.specs.Answers.{answer_of};
ghost use Rattle.c_lists.specs.Figures.{figure_list};
ghost use Rattle.analyser.specs.Figures.{figures_answer};
ghost use Rattle.analyser.specs.Texts.{listing_result, page_result};
ghost use Rattle.analyser.specs.Schedules.{schedule_result, pricing};
ghost use Rattle.analyser.specs.Figures.{margin_answer, size_answer, bill_answer};
ghost use Rattle.analyser.specs.Sheets.{to_form_2_result, to_form_1_result};
ghost use Rattle.exports.specs.Exported.{or_old, itself, in_cents, price_list, rewrite_result, rows_result, PlaceCall};

use lent_calls::tell;
use model::RowFigures;

// Whether the bytes are a sheet: the sheet's refusals.
#[unsafe(no_mangle)]
pub extern "C" fn segtrace_check(sheet: &[u8]) -> u64
    ensures { result ≡ verdict_number (answer_of (read_sheet sheet.now)) }
{
    match analyser::sheets::read(sheet) {
        Ok(_) => 0,
        Err(why) => why.number(),
    }
}

// The sheet read and written again, and its length: the sheet's refusals, 11. Its text is as long as the bytes, so that its length need not
// be worked out first.
#[unsafe(no_mangle)]
pub extern "C" fn segtrace_rewrite(sheet: &[u8], out: &mut [u8], written: &mut u64) -> u64
    ensures { PlaceCall (rewrite_result sheet.now) out.old out.new
        written.old written.new result }
{
    match analyser::sheets::read(sheet) {
        Ok(read) => tell(write_sheet::write_within(read, sheet.len(), out), written),
        Err(why) => why.number(),
    }
}

// A sheet of form 1 in form 2, and its length: the sheet's refusals, where any other form is 4, 11.
#[unsafe(no_mangle)]
pub extern "C" fn segtrace_to_form_2(sheet: &[u8], out: &mut [u8], written: &mut u64) -> u64
    ensures { PlaceCall (to_form_2_result sheet.now) out.old out.new
        written.old written.new result }
{
    tell(analyser::sheets::to_form_2(sheet, out), written)
}

// A sheet of form 2 in form 1, and its length: the sheet's refusals, where any other form is 4, 17, 11.
#[unsafe(no_mangle)]
pub extern "C" fn segtrace_to_form_1(sheet: &[u8], out: &mut [u8], written: &mut u64) -> u64
    ensures { PlaceCall (to_form_1_result sheet.now) out.old out.new
        written.old written.new result }
{
    tell(analyser::sheets::to_form_1(sheet, out), written)
}

// The figures of a row in the listing's order: the sheet's refusals, 7.
#[unsafe(no_mangle)]
pub extern "C" fn segtrace_figures(
    sheet: &[u8],
    row: u64,
    figures: &mut [u64; RowFigures::ITEMS],
) -> u64
    ensures { (result ≡ verdict_number (figures_answer sheet.now row))
        × (figures.new ≡ or_old figure_list (figures_answer sheet.now row) figures.old) }
{
    match analyser::figuring::figures(sheet, row as usize) {
        Ok(found) => {
            *figures = c_lists::of_row(found);
            0
        }
        Err(why) => why.number(),
    }
}

// The figures of every row, 11 numbers each, one row after the other, and how many numbers: the sheet's refusals, 11.
#[unsafe(no_mangle)]
pub extern "C" fn segtrace_all_figures(sheet: &[u8], out: &mut [u64], written: &mut u64) -> u64
    ensures { PlaceCall (rows_result sheet.now) out.old out.new
        written.old written.new result }
{
    lent_calls::all_figures(sheet, out, written)
}

// The listing, and its length: the sheet's refusals, 11.
#[unsafe(no_mangle)]
pub extern "C" fn segtrace_listing(sheet: &[u8], out: &mut [u8], written: &mut u64) -> u64
    ensures { PlaceCall (listing_result sheet.now) out.old out.new
        written.old written.new result }
{
    tell(analyser::texts::listing(sheet, out), written)
}

// The page for the binder, or two pages, and their length: the sheet's refusals, 11.
#[unsafe(no_mangle)]
pub extern "C" fn segtrace_page(sheet: &[u8], out: &mut [u8], written: &mut u64) -> u64
    ensures { PlaceCall (page_result sheet.now) out.old out.new
        written.old written.new result }
{
    tell(analyser::texts::page(sheet, out), written)
}

// The optimal schedule of a row, and its length: the sheet's refusals, where form 4 is 4, 7, 11.
#[unsafe(no_mangle)]
pub extern "C" fn segtrace_optimal_schedule(
    sheet: &[u8],
    row: u64,
    out: &mut [u8],
    written: &mut u64,
) -> u64
    ensures { PlaceCall (schedule_result sheet.now row) out.old out.new
        written.old written.new result }
{
    tell(
        analyser::schedules::optimal_schedule(sheet, row as usize, out),
        written,
    )
}

// Memory, load and total of a schedule at a row, in form 4 with stores counted: the sheet's refusals, 7, 8, 9, 10.
#[unsafe(no_mangle)]
pub extern "C" fn segtrace_price(
    sheet: &[u8],
    row: u64,
    schedule: &[u8],
    price: &mut [u64; 3],
) -> u64
    ensures { (result ≡ verdict_number (pricing sheet.now row schedule.now))
        × (price.new ≡ or_old price_list (pricing sheet.now row schedule.now) price.old) }
{
    lent_calls::price(sheet, row, schedule, price)
}

// The margin of a reference, counted from 1, at a row: the sheet's refusals, 7, 14, 15.
#[unsafe(no_mangle)]
pub extern "C" fn segtrace_margin(sheet: &[u8], row: u64, reference: u64, margin: &mut i64) -> u64
    ensures { (result ≡ verdict_number (margin_answer sheet.now row reference))
        × (margin.new ≡ or_old itself (margin_answer sheet.now row reference) margin.old) }
{
    match analyser::figuring::margin(sheet, row as usize, reference as usize) {
        Ok(found) => {
            *margin = found;
            0
        }
        Err(why) => why.number(),
    }
}

// The lowest row with the least load among the rows with optmem within the ceiling: the sheet's refusals, 12.
#[unsafe(no_mangle)]
pub extern "C" fn segtrace_size(sheet: &[u8], ceiling: u64, row: &mut u64) -> u64
    ensures { (result ≡ verdict_number (size_answer sheet.now ceiling))
        × (row.new ≡ or_old itself (size_answer sheet.now ceiling) row.old) }
{
    lent_calls::size(sheet, ceiling, row)
}

// The bill of a row in cents, at two rates and a minimum: the sheet's refusals, 7, 18.
#[unsafe(no_mangle)]
pub extern "C" fn segtrace_bill(
    sheet: &[u8],
    row: u64,
    memory_rate: u64,
    load_rate: u64,
    minimum: u64,
    cents: &mut u64,
) -> u64
    ensures { (result ≡ verdict_number (bill_answer sheet.now row memory_rate load_rate minimum))
        × (cents.new ≡ or_old in_cents (bill_answer sheet.now row memory_rate load_rate minimum) cents.old) }
{
    match analyser::figuring::bill(sheet, row as usize, memory_rate, load_rate, minimum) {
        Ok(bill) => {
            *cents = bill.0;
            0
        }
        Err(why) => why.number(),
    }
}
