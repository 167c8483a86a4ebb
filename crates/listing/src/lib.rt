// The listing as text: its lines one after the other into the lent place, or first into a local one where the lent place may be too short.
// What the text is stands in specs/Listing.antt, and its parts in specs/Parts.antt. Nothing is assumed.
#![tactic(auto)]

pub mod of_sheet;
pub mod row_text;

ghost use Rattle.std.specs.Prelude.{◌≡◌, ◌+◌, ◌≤◌, leb, length, Ok};
ghost use Rattle.model.specs.Sheets.{most_rows};
ghost use Rattle.model.specs.Places.{PlaceLeft};
ghost use Rattle.model.specs.Values.{zeros};
ghost use Rattle.text.specs.inner.Puts.{Put};
ghost use Rattle.listing.specs.Listing.{listing_bytes, most_listing, refused_text};
ghost use Rattle.listing.specs.inner.Parts.{counts_text, head_of, rows_of, text_of};

use model::{Refusal, RowFigures, Sheet};
use row_text::{has_modtotal, put_marked};
use text::{number_length, put, put_digits, put_number};

// The most bytes of the listing of a sheet of form 1 to 3, and of form 4.
pub const MAX_BYTES: usize = 11_558;

pub const MAX_BYTES_4: usize = 13_158;

// ---- forms

// Whether the listing of a sheet of this form has steps=: from form 2 on.
fn has_steps(form: u8) -> bool
    ensures { result ≡ leb 2 form }
{
    2 <= form
}

// The most bytes of the listing of a sheet of this form.
fn most_bytes(form: u8) -> usize
    ensures { result ≡ listing_bytes form }
{
    if has_modtotal(form) {
        return MAX_BYTES_4;
    }
    MAX_BYTES
}

// A place of zeros for the longest listing.
fn longest_place() -> [u8; MAX_BYTES_4]
    ensures { result ≡ zeros most_listing }
{
    [0; MAX_BYTES_4]
}

// ---- the listing

// What a listing shows of a sheet: its form, how many references, steps and segments it has, the figures of each row, and the modtotal of
// each, which is read from form 4 on.
#[derive(Clone, Copy)]
pub struct Listing<'a> {
    pub form: u8,
    pub refs: usize,
    pub steps: usize,
    pub segs: usize,
    pub figures: &'a [RowFigures],
    pub modtotals: &'a [u64; Sheet::MAX_ROWS],
}

impl<'a> Listing<'a> {
    // Writes refs= and, where the form has it, steps=, and gives the index after them.
    fn put_counts(&self, out: &mut [u8], at: usize) -> usize
        requires { at + length (counts_text self.now.form self.now.refs self.now.steps) ≤ length out.old }
        ensures { Put (counts_text self.now.form self.now.refs self.now.steps) at out.old result out.new }
    {
        let second = put_number(b"refs=", self.refs as u64, out, at);
        if has_steps(self.form) {
            return put_number(b"steps=", self.steps as u64, out, second);
        }
        second
    }

    // Writes the lines before those of the rows at the front of `out`, and gives the index after them.
    fn put_head(&self, out: &mut [u8]) -> usize
        requires { length (head_of self.now) ≤ length out.old }
        ensures { Put (head_of self.now) 0 out.old result out.new }
    {
        let third = self.put_counts(out, 0);
        let fourth = put_number(b"segs=", self.segs as u64, out, third);
        put_number(b"rows=", self.figures.len() as u64, out, fourth)
    }

    // Writes the lines of the rows, and gives the index after them.
    fn put_rows(&self, out: &mut [u8], at: usize) -> usize
        requires { (length self.now.figures.now ≤ most_rows) × (at + length (rows_of self.now) ≤ length out.old) }
        ensures { Put (rows_of self.now) at out.old result out.new }
    {
        let mut next = at;
        for (f, modtotal) in self.figures.iter().zip(self.modtotals) {
            next = put_marked(self.form, *f, *modtotal, out, next);
        }
        next
    }

    // Writes the listing at the front of `out`, and gives the index after it.
    fn put(&self, out: &mut [u8]) -> usize
        requires { (length self.now.figures.now ≤ most_rows) × (length (text_of self.now) ≤ length out.old) }
        ensures { Put (text_of self.now) 0 out.old result out.new }
    {
        let first = self.put_head(out);
        self.put_rows(out, first)
    }

    // The listing into a lent place, then its old contents; refusal 11 and no change where the place is shorter. It has no more bytes than
    // that of an accepted sheet of the form can have: a place of so many takes it at once, and for a shorter one it is written into a local
    // place first.
    pub fn write(&self, out: &mut [u8]) -> Result<usize, Refusal>
        requires { (length self.now.figures.now ≤ most_rows) × (length (text_of self.now) ≤ listing_bytes self.now.form) }
        ensures { PlaceLeft (Ok (text_of self.now)) out.old out.new result }
    {
        if most_bytes(self.form) <= out.len() {
            return Ok(self.put(out));
        }
        let mut own = longest_place();
        let length = self.put(&mut own);
        text::place(&own[..length], out)
    }
}

// ---- a refusal

// The line for a refusal into a lent place, then its old contents; refusal 11 and no change where the place is shorter. Since
// `put_digits` is called here too, the compiler keeps it apart and puts the small `put_number` into the writers of lines.
pub fn write_refusal(why: Refusal, out: &mut [u8]) -> Result<usize, Refusal>
    ensures { PlaceLeft (Ok (refused_text why)) out.old out.new result }
{
    let n = why.number();
    if out.len() < number_length(b"refused=", n) {
        return Err(Refusal::PlaceTooShort);
    }
    let value = put(b"refused=", out, 0);
    Ok(put_digits(n, b'\n', out, value))
}
