// The converters between form 1 and form 2 of a sheet (request F-3), on a sheet by value: its text in the other form, into a lent place.
// What they leave there is written in crate `sheet`. Nothing is assumed.
#![tactic(auto)]

ghost use Rattle.std.specs.Prelude.{◌≡◌};
ghost use Rattle.sheet.specs.Forms.{in_form, to_form_2, to_form_1};
ghost use Rattle.model.specs.Places.{PlaceLeft};
ghost use Rattle.model.specs.Standing.{Standing};
ghost use Rattle.model.specs.Values.{value_of};

use model::{Refusal, Sheet};
use write_sheet::write;

// The sheet in another form, without marks.
fn in_form(s: Sheet, form: u8) -> Sheet
    ensures { value_of result ≡ in_form form (value_of s) }
{
    Sheet {
        form,
        marked: 0,
        marks: [false; Sheet::MAX_STEPS],
        ..s
    }
}

// The text of the sheet in form 2; refusal 11 and no change where the place is shorter.
pub fn to_form_2(s: Sheet, out: &mut [u8]) -> Result<usize, Refusal>
    ensures { PlaceLeft (to_form_2 (value_of s)) out.old out.new result }
{
    write(in_form(s, 2), out)
}

// The text of the sheet in form 1: refusal 17 where some step has no touch, then 11 and no change where the place is shorter.
pub fn to_form_1(s: Sheet, out: &mut [u8]) -> Result<usize, Refusal>
    requires { Standing s }
    ensures { PlaceLeft (to_form_1 (value_of s)) out.old out.new result }
{
    if s.touches[..s.steps].contains(&Sheet::IDLE) {
        return Err(Refusal::IdleStep);
    }
    write(in_form(s, 1), out)
}
