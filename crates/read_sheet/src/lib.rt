// Reading a sheet: any bytes to the sheet that they stand for, or the refusal; its form, its head, and then the entries of its steps. Each
// function reads from the head of the bytes that it is lent, into the sheet that it is lent, and gives the place of what follows. Where one
// refuses, that sheet may be partly filled. Nothing is assumed.
#![tactic(auto)]

mod form_line;
mod head_lines;
mod row_lines;
mod warm_lines;

ghost use Rattle.std.specs.Prelude.{◌≡◌, leb};
ghost use Rattle.model.specs.Values.{head_value_of, empty_sheet};
ghost use Rattle.sheet.specs.Answers.{answer_of};
ghost use Rattle.sheet.specs.Lines.{and_then};
ghost use Rattle.sheet.specs.Order.{head_part, entries_part, run_part};
ghost use Rattle.sheet.specs.Reading.{at_end, read_forms};
ghost use Rattle.read_sheet.specs.inner.AtPlace.{answer_at, steps_counted, BlankSheet};
ghost use Rattle.read_sheet.specs.inner.HeadsAtPlace.{HeadFilled};
ghost use Rattle.read_touches.specs.inner.TouchesAtPlace.{mark_count, BlankSteps, StepsReads};

use model::{Refusal, Sheet};
use scan::numbers;

// How many marks a sheet of the form has that has so many steps: from form 4 on one for each.
fn mark_count(form: u8, steps: usize) -> usize
    ensures { result ≡ mark_count (leb 4 form) steps }
{
    if 4 <= form { steps } else { 0 }
}

// The entries of a sheet of this form into the front of `out`, and from form 4 on its marks into that of `marks`; all of `out` is idle, and
// all of `marks` false. How many steps there are, and the place of what follows them.
fn entry_lines(
    s: &[u8],
    form: u8,
    segs: usize,
    out: &mut [u16],
    marks: &mut [bool],
) -> Result<(usize, usize), Refusal>
    requires { BlankSteps segs out.old marks.old }
    ensures { StepsReads (leb 4 form) s.now result (steps_counted (leb 2 form) s.now) out.new out.old
        marks.new marks.old ((entries_part (leb 2 form) (leb 4 form) segs).reads s.now) }
{
    if 2 <= form {
        return read_touches::step_lines(s, 4 <= form, segs, out, marks);
    }
    let last = (segs - 1) as u32;
    numbers::counted_lines(s, b"refs=", 0, b"ref=", 0, last, out)
}

// Reads the entries, to the end of the bytes, into a sheet that has its form and its head.
fn run_lines(s: &[u8], sheet: &mut Sheet) -> Result<(), Refusal>
    requires head_filled { HeadFilled sheet.old.head }
    requires steps_blank { BlankSteps sheet.old.head.segs sheet.old.touches sheet.old.marks }
    ensures { answer_at result sheet.new
        ≡ answer_of (at_end ((run_part sheet.old.form (head_value_of sheet.old.head)).reads s.now)) }
{
    let form = sheet.form;
    let segs = sheet.head.segs;
    let (steps, end) = entry_lines(s, form, segs, &mut sheet.touches, &mut sheet.marks)?;
    if end < s.len() {
        return Err(Refusal::BytesAfterEnd);
    }
    sheet.steps = steps;
    sheet.marked = mark_count(form, steps);
    Ok(())
}

// Reads the lines after the form line, to the end of the bytes, into a sheet that has its form; the form is taken or is not.
fn sheet_lines(s: &[u8], taken: bool, sheet: &mut Sheet) -> Result<(), Refusal>
    requires { BlankSheet sheet.old }
    ensures { answer_at result sheet.new
        ≡ answer_of (at_end (and_then ((head_part taken (leb 3 sheet.old.form)).reads s.now)
        (λ head rest. (run_part sheet.old.form head).reads rest))) }
{
    let later = 3 <= sheet.form;
    let at = head_lines::head_lines(s, taken, later, &mut sheet.head)?;
    run_lines(&s[at..], sheet)
}

// Reads a sheet of one of the forms `lo` to `hi`.
fn all_lines(bytes: &[u8], lo: u8, hi: u8, sheet: &mut Sheet) -> Result<(), Refusal>
    requires { sheet.old ≡ empty_sheet }
    ensures { answer_at result sheet.new ≡ answer_of (read_forms lo hi bytes.now) }
{
    if form_line::too_long(bytes) {
        return Err(Refusal::SheetTooLong);
    }
    let (form, first) = form_line::form_line(bytes, lo, hi)?;
    sheet.form = form as u8;
    sheet_lines(&bytes[first..], lo as u32 <= form, sheet)
}

// Any bytes to a sheet of one of the forms `lo` to `hi`, or the refusal.
pub fn read_forms(bytes: &[u8], lo: u8, hi: u8) -> Result<Sheet, Refusal>
    ensures { result ≡ answer_of (read_forms lo hi bytes.now) }
{
    let mut sheet = Sheet::empty();
    all_lines(bytes, lo, hi, &mut sheet)?;
    Ok(sheet)
}
