// Sheets in and out: read, written, in another form, two as one, and made of a trace in the din text form.
// What each call answers is written in specs/Sheets.antt.
ghost use Rattle.std.specs.Prelude.{◌≡◌};
ghost use Rattle.model.specs.Places.{PlaceLeft};
ghost use Rattle.model.specs.Standing.{Standing};
ghost use Rattle.model.specs.Values.{head_of, head_value_of, value_of};
ghost use Rattle.sheet.specs.Answers.{answer_of};
ghost use Rattle.sheet.specs.Reading.{read_sheet};
ghost use Rattle.analyser.specs.Sheets.{write_result, to_form_2_result, to_form_1_result, joint_result, joined_to, join_result};
ghost use Rattle.analyser.specs.Sheets.{imported_result, import_result};

use model::{Head, Refusal, Sheet};

// The sheet that a run of bytes stands for, or the sheet's refusal.
pub fn read(bytes: &[u8]) -> Result<Sheet, Refusal>
    ensures { result ≡ answer_of (read_sheet bytes.now) }
{
    read_sheet::read_forms(bytes, 1, Sheet::NEWEST_FORM)
}

// The bytes of a sheet into a lent place, then its old contents; 11 and no change where the place is too short.
pub fn write(sheet: Sheet, out: &mut [u8]) -> Result<usize, Refusal>
    ensures { PlaceLeft (write_result sheet) out.old out.new result }
{
    write_sheet::write(sheet, out)
}

// A sheet of form 1 in form 2 into a lent place, then its old contents: refused with the sheet's refusals, 11.
pub fn to_form_2(bytes: &[u8], out: &mut [u8]) -> Result<usize, Refusal>
    ensures { PlaceLeft (to_form_2_result bytes.now) out.old out.new result }
{
    let sheet = read_sheet::read_forms(bytes, 1, 1)?;
    convert::to_form_2(sheet, out)
}

// A sheet of form 2 without an idle step in form 1 into a lent place, then its old contents: refused with the sheet's refusals, 17, 11.
pub fn to_form_1(bytes: &[u8], out: &mut [u8]) -> Result<usize, Refusal>
    ensures { PlaceLeft (to_form_1_result bytes.now) out.old out.new result }
{
    let sheet = read_sheet::read_forms(bytes, 2, 2)?;
    convert::to_form_1(sheet, out)
}

// The joint sheet of two sheets into a lent place, then its old contents: refused with 20, 21, 22, 11.
fn write_joint(first: Sheet, second: Sheet, out: &mut [u8]) -> Result<usize, Refusal>
    requires { Standing first × Standing second }
    ensures { PlaceLeft (joint_result (value_of first) (value_of second)) out.old out.new result }
{
    let sheet = join::join(first, second)?;
    write_sheet::write_within(sheet, Sheet::MAX_BYTES_3, out)
}

// The same where the second is still to be read: its refusals come before.
fn join_to(first: Sheet, second: &[u8], out: &mut [u8]) -> Result<usize, Refusal>
    requires { Standing first }
    ensures { PlaceLeft (joined_to (value_of first) second.now) out.old out.new result }
{
    let sheet = read_sheet::read_forms(second, 2, 3)?;
    write_joint(first, sheet, out)
}

// Two sheets of form 2 or 3 as one of form 3 on the same clock, into a lent place, then its old contents: refused with the first sheet's
// refusals, then the second's, 20, 21, 22, 11.
pub fn join(first: &[u8], second: &[u8], out: &mut [u8]) -> Result<usize, Refusal>
    ensures { PlaceLeft (join_result first.now second.now) out.old out.new result }
{
    let sheet = read_sheet::read_forms(first, 2, 3)?;
    join_to(sheet, second, out)
}

// The sheet of a trace with the rows of a head that was read, into a lent place, then its old contents: refused with 23, 24, 25, 11.
fn write_imported(trace: &[u8], k: u64, rows: Head, out: &mut [u8]) -> Result<usize, Refusal>
    requires { rows ≡ head_of (head_value_of rows) }
    ensures { PlaceLeft (imported_result trace.now k (head_value_of rows).rows) out.old out.new result }
{
    let sheet = din::import(trace, k, rows)?;
    write_sheet::write(sheet, out)
}

// The sheet of a trace with pages of 2 to the power k bytes and the rows of a given sheet, into a lent place, then its old contents:
// refused with the given sheet's refusals, 23, 24, 25, 11.
pub fn import_din(trace: &[u8], k: u64, sheet: &[u8], out: &mut [u8]) -> Result<usize, Refusal>
    ensures { PlaceLeft (import_result trace.now k sheet.now) out.old out.new result }
{
    let sheet = read(sheet)?;
    write_imported(trace, k, sheet.head, out)
}
