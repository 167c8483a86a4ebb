// The lines of the rows of a listing, one after the other from an index of the lent place on.
// What they are stands in specs/RowListing.antt.
ghost use Rattle.std.specs.Prelude.{◌≡◌, ◌+◌, ◌≤◌, leb, length};
ghost use Rattle.text.specs.inner.Puts.{Put};
ghost use Rattle.listing.specs.RowListing.{row_listing, marked_text};
ghost use Rattle.listing.specs.inner.Keyed.{keyed_text};

use model::RowFigures;
use text::put_number;

// Whether the listing of a sheet of this form has modtotal=: from form 4 on.
pub fn has_modtotal(form: u8) -> bool
    ensures { result ≡ leb 4 form }
{
    4 <= form
}

// Writes a line for each key and number, and gives the index after them.
fn put_lines(lines: &[(&[u8], u64)], out: &mut [u8], at: usize) -> usize
    requires { at + length (keyed_text lines.now) ≤ length out.old }
    ensures { Put (keyed_text lines.now) at out.old result out.new }
{
    let mut next = at;
    for (key, n) in lines {
        next = put_number(key, *n, out, next);
    }
    next
}

// Writes the eleven lines of a row, and gives the index after them.
fn put_row(f: RowFigures, out: &mut [u8], at: usize) -> usize
    requires { at + length (row_listing f) ≤ length out.old }
    ensures { Put (row_listing f) at out.old result out.new }
{
    let lines: [(&[u8], u64); 11] = [
        (b"h=", f.h),
        (b"d=", f.d),
        (b"misses=", f.misses),
        (b"volume=", f.volume),
        (b"load=", f.load.0),
        (b"optmem=", f.optmem.0),
        (b"opttotal=", f.opttotal),
        (b"optocc=", f.optocc),
        (b"wsmem=", f.wsmem),
        (b"wsocc=", f.wsocc),
        (b"mean=", f.mean),
    ];
    put_lines(&lines, out, at)
}

// Writes the lines of a row and, where the form has it, modtotal= after them, and gives the index after that.
pub(crate) fn put_marked(form: u8, f: RowFigures, modtotal: u64, out: &mut [u8], at: usize) -> usize
    requires { at + length (marked_text form f modtotal) ≤ length out.old }
    ensures { Put (marked_text form f modtotal) at out.old result out.new }
{
    let end = put_row(f, out, at);
    if has_modtotal(form) {
        return put_number(b"modtotal=", modtotal, out, end);
    }
    end
}
