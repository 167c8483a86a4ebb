// Writing a sheet: the length of its text first, then the text part after part, each from an index of the lent place on.
// What the text is stands in specs/Writing.antt, and what a place becomes in the crates text and model. Nothing is assumed. A place that
// is too short stays as it was, so the length has to be known before the first byte is written: each part has a function for either.
#![tactic(auto)]

mod head_text;
mod touch_text;

ghost use Rattle.std.specs.Prelude.{◌≡◌, ◌+◌, ◌≤◌, length, Ok};
ghost use Rattle.model.specs.Sheets.{most_steps};
ghost use Rattle.model.specs.Places.{PlaceLeft};
ghost use Rattle.model.specs.Values.{value_of};
ghost use Rattle.text.specs.inner.Puts.{Put, LengthOf};
ghost use Rattle.write_sheet.specs.inner.Parts.{form_text, run_text};
ghost use Rattle.sheet.specs.Writing.{sheet_text};

use head_text::{counted_length, head_length, put_counted, put_head};
use model::{Refusal, Sheet};
use text::{number_length, put_number};

// ---- lengths

// The length of the form line.
fn form_length(form: u8) -> usize
    ensures { LengthOf (form_text form) 26 result }
{
    if 2 <= form {
        return number_length(b"form=", form as u64);
    }
    0
}

// The length of the lines of the entries of a form.
fn run_length(form: u8, entries: &[u16], marks: &[bool]) -> usize
    requires { length entries.now ≤ most_steps }
    ensures { LengthOf (run_text form entries.now marks.now) 65589 result }
{
    if 2 <= form {
        return touch_text::steps_length(entries, marks);
    }
    counted_length(b"refs=", b"ref=", entries)
}

// ---- parts

// Writes the form line at the front of `out`, and gives the index after it.
fn put_form(form: u8, out: &mut [u8]) -> usize
    requires { length (form_text form) ≤ length out.old }
    ensures { Put (form_text form) 0 out.old result out.new }
{
    if 2 <= form {
        return put_number(b"form=", form as u64, out, 0);
    }
    0
}

// Writes the lines of the entries of a form, and gives the index after them.
fn put_run(form: u8, entries: &[u16], marks: &[bool], out: &mut [u8], at: usize) -> usize
    requires { (length entries.now ≤ most_steps) × (at + length (run_text form entries.now marks.now) ≤ length out.old) }
    ensures { Put (run_text form entries.now marks.now) at out.old result out.new }
{
    if 2 <= form {
        return touch_text::put_steps(entries, marks, out, at);
    }
    put_counted(b"refs=", b"ref=", entries, out, at)
}

// ---- the sheet

// The length of the text of a sheet.
fn text_length(sheet: Sheet) -> usize
    ensures { result ≡ length (sheet_text (value_of sheet)) }
{
    let form = sheet.form;
    let head = sheet.head;
    let touches = sheet.touches;
    let steps = sheet.steps.min(touches.len());
    let marks = sheet.marks;
    let marked = sheet.marked.min(marks.len());
    form_length(form)
        + head_length(form, head)
        + run_length(form, &touches[..steps], &marks[..marked])
}

// Writes the text of a sheet at the front of `out`, and gives the index after it.
fn put_sheet(sheet: Sheet, out: &mut [u8]) -> usize
    requires { length (sheet_text (value_of sheet)) ≤ length out.old }
    ensures { Put (sheet_text (value_of sheet)) 0 out.old result out.new }
{
    let form = sheet.form;
    let head = sheet.head;
    let touches = sheet.touches;
    let steps = sheet.steps.min(touches.len());
    let marks = sheet.marks;
    let marked = sheet.marked.min(marks.len());
    let first = put_form(form, out);
    let run = put_head(form, head, out, first);
    put_run(form, &touches[..steps], &marks[..marked], out, run)
}

// The bytes of a sheet into a lent place: the text of the sheet's value, then the old contents; refusal 11 and no change where the
// place is shorter.
// It is so for every Sheet, also one put together by hand: a count beyond its array counts the whole array, the lines of form 2 are
// written where the form is 2 or more, those of form 3 where it is 3 or more, and letters w where there are marks.
pub fn write(sheet: Sheet, out: &mut [u8]) -> Result<usize, Refusal>
    ensures { PlaceLeft (Ok (sheet_text (value_of sheet))) out.old out.new result }
{
    if out.len() < text_length(sheet) {
        return Err(Refusal::PlaceTooShort);
    }
    Ok(put_sheet(sheet, out))
}

// The same for a sheet whose text has at most `most` bytes: its length is worked out only for a place that is shorter.
pub fn write_within(sheet: Sheet, most: usize, out: &mut [u8]) -> Result<usize, Refusal>
    requires { length (sheet_text (value_of sheet)) ≤ most }
    ensures { PlaceLeft (Ok (sheet_text (value_of sheet))) out.old out.new result }
{
    if out.len() < most {
        return write(sheet, out);
    }
    Ok(put_sheet(sheet, out))
}
