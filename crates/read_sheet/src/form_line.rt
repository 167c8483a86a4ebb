// The form line of a sheet, and whether the bytes are more than a sheet of the form that it names may have, for the root. Each function
// reads from the head of the bytes that it is lent.
ghost use Rattle.std.specs.Prelude.{◌≡◌, max, ltb, length};
ghost use Rattle.model.specs.Sheets.{form_bytes};
ghost use Rattle.sheet.specs.Reading.{named_form};
ghost use Rattle.scan.specs.inner.AtPlace.{LineReads};
ghost use Rattle.read_sheet.specs.inner.FormAtPlace.{form_line};

use model::{Refusal, Sheet};
use scan::{bytes, numbers};

// The form that the first line names, 1 where it names none from 2 on.
fn named_form(bytes: &[u8]) -> u32
    ensures { result ≡ named_form bytes.now }
{
    match numbers::number_line(bytes, b"form=", 2, Sheet::NEWEST_FORM as u32) {
        Ok((form, _)) => form,
        Err(_) => 1,
    }
}

// The most bytes of a sheet of the form.
fn form_bytes(form: u32) -> usize
    ensures { result ≡ form_bytes form }
{
    match form {
        2 => Sheet::MAX_BYTES_2,
        3 => Sheet::MAX_BYTES_3,
        4 => Sheet::MAX_BYTES_4,
        _ => Sheet::MAX_BYTES,
    }
}

// Whether there are more bytes than a sheet of the form that the first line names may have. Up to the least limit no line is looked at.
pub fn too_long(bytes: &[u8]) -> bool
    ensures { result ≡ ltb (form_bytes (named_form bytes.now)) (length bytes.now) }
{
    if bytes.len() <= Sheet::MAX_BYTES {
        return false;
    }
    form_bytes(named_form(bytes)) < bytes.len()
}

// The form `lo` to `hi` of the form line and the place of what follows it, or 1 where the bytes do not begin with its key.
pub fn form_line(bytes: &[u8], lo: u8, hi: u8) -> Result<(u32, usize), Refusal>
    ensures { LineReads bytes.now result (form_line lo hi bytes.now) }
{
    if bytes::has_key(bytes, b"form=") {
        return numbers::number_line(bytes, b"form=", lo.max(2) as u32, hi as u32);
    }
    Ok((1, 0))
}
