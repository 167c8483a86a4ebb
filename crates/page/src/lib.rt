// The page for the binder as text: its lines one after the other into the lent place.
// What the text is stands in specs/Page.antt. That every field fits its column is asked of the figures, and proved of every accepted sheet;
// nothing is assumed.
#![tactic(auto)]

ghost use Rattle.std.specs.Prelude.{◌≡◌, [], ◌∷◌, ◌++◌, map, ◌+◌, ◌*◌, ◌≤◌, length, replicate, Ok};
ghost use Rattle.model.specs.Sheets.{most_rows};
ghost use Rattle.decimal.specs.Decimal.{written};
ghost use Rattle.model.specs.Places.{PlaceLeft};
ghost use Rattle.model.specs.Standing.{Standing};
ghost use Rattle.model.specs.Values.{value_of};
ghost use Rattle.text.specs.inner.Puts.{Put};
ghost use Rattle.text.specs.Keys.{kind_key, kind_word, a_key};
ghost use Rattle.page.specs.inner.Wide.{PutWide};
ghost use Rattle.page.specs.Page.{blank, blanks, field, title_line, names_line, row_line, blank_line};
ghost use Rattle.page.specs.Page.{page_lines, concatenated, pages, pages_of, pages_length, Fits, EachFits};

use model::{Kind, Refusal, RowFigures, Sheet};
use text::put;

// Writes `n` blanks, and gives the index after them.
fn put_blanks(n: usize, out: &mut [u8], at: usize) -> usize
    requires { at + n ≤ length out.old }
    ensures { PutWide (blanks n) n at out.old result out.new }
{
    let end = at + n;
    out[at..end].fill(b' ');
    end
}

// Writes `n` blanks and a line feed, and gives the index after it.
fn put_end(n: usize, out: &mut [u8], at: usize) -> usize
    requires { at + n + 1 ≤ length out.old }
    ensures { PutWide (blanks n ++ (10 ∷ [])) (n + 1) at out.old result out.new }
{
    let last = put_blanks(n, out, at);
    out[last] = b'\n';
    last + 1
}

// Writes `gap` blanks and then a number, right-aligned in a column of `width` characters, and gives the index after it.
fn put_field(gap: usize, width: usize, n: u64, out: &mut [u8], at: usize) -> usize
    requires { (length (written n) ≤ width) × (at + (gap + width) ≤ length out.old) }
    ensures { PutWide (blanks gap ++ field width (written n)) (gap + width) at out.old result out.new }
{
    let first = put_blanks(gap + (width - decimal::width(n)), out, at);
    decimal::write(n, out, first)
}

// Writes the line of a row, and gives the index after it.
fn put_row(f: RowFigures, out: &mut [u8], at: usize) -> usize
    requires { Fits f × (at + 73 ≤ length out.old) }
    ensures { PutWide (row_line f) 73 at out.old result out.new }
{
    let d = put_field(0, 7, f.h, out, at);
    let misses = put_field(2, 7, f.d, out, d);
    let volume = put_field(2, 8, f.misses, out, misses);
    let load = put_field(2, 12, f.volume, out, volume);
    let mean = put_field(2, 12, f.load.0, out, load);
    let last = put_field(2, 12, f.mean, out, mean);
    put_end(4, out, last)
}

// Writes a line for each row, and gives the index after them.
fn put_rows(rows: &[RowFigures], out: &mut [u8], at: usize) -> usize
    requires { EachFits rows.now × (at + 73 * length rows.now ≤ length out.old) }
    ensures { PutWide (concatenated (map row_line rows.now)) (73 * length rows.now) at out.old result out.new }
{
    let mut next = at;
    for f in rows {
        next = put_row(*f, out, next);
    }
    next
}

// Writes the start of line 1, up to the number, and gives the index after it.
fn put_kind(kind: Kind, out: &mut [u8], at: usize) -> usize
    requires { at + 13 ≤ length out.old }
    ensures { Put (kind_key ++ (kind_word kind ++ (blank ∷ a_key))) at out.old result out.new }
{
    match kind {
        Kind::Time => put(b"kind=time a=", out, at),
        Kind::Space => put(b"kind=space a=", out, at),
    }
}

// Writes line 1, and gives the index after it.
fn put_title(kind: Kind, a: u8, out: &mut [u8], at: usize) -> usize
    requires { at + 73 ≤ length out.old }
    ensures { PutWide (title_line kind a) 73 at out.old result out.new }
{
    let value = put_kind(kind, out, at);
    let end = decimal::write(a as u64, out, value);
    put_end(at + 72 - end, out, end)
}

// Writes line 2, and gives the index after it.
fn put_names(out: &mut [u8], at: usize) -> usize
    requires { at + 73 ≤ length out.old }
    ensures { PutWide names_line 73 at out.old result out.new }
{
    put(
        b"      h        d    misses        volume          load          mean    \n",
        out,
        at,
    )
}

// Writes `n` lines of blanks, and gives the index after them.
fn put_blank_lines(n: usize, out: &mut [u8], at: usize) -> usize
    requires { at + 73 * n ≤ length out.old }
    ensures { PutWide (concatenated (replicate n blank_line)) (73 * n) at out.old result out.new }
{
    let mut next = at;
    for _ in 0..n {
        next = put_end(72, out, next);
    }
    next
}

// Writes the page of these rows, and gives the index after it.
fn put_page(kind: Kind, a: u8, rows: &[RowFigures], out: &mut [u8], at: usize) -> usize
    requires { (length rows.now ≤ 58) × EachFits rows.now × (at + 4380 ≤ length out.old) }
    ensures { PutWide (concatenated (page_lines kind a rows.now)) 4380 at out.old result out.new }
{
    let names = put_title(kind, a, out, at);
    let first = put_names(out, names);
    let blanks = put_rows(rows, out, first);
    put_blank_lines(58 - rows.len(), out, blanks)
}

// How many bytes the page or the two pages of so many rows have.
fn pages_length(rows: usize) -> usize
    ensures { result ≡ pages_length rows }
{
    if rows <= 58 { 4380 } else { 8760 }
}

// Writes the page or the two pages of the rows at the front of `out`, and gives their length.
fn put_pages(kind: Kind, a: u8, rows: &[RowFigures], out: &mut [u8]) -> usize
    requires { (length rows.now ≤ most_rows) × EachFits rows.now × (pages_length (length rows.now) ≤ length out.old) }
    ensures { Put (pages kind a rows.now) 0 out.old result out.new }
{
    if rows.len() <= 58 {
        return put_page(kind, a, rows, out, 0);
    }
    let second = put_page(kind, a, &rows[..58], out, 0);
    put_page(kind, a, &rows[58..], out, second)
}

// The page or the two pages of the rows into a lent place, then its old contents; refusal 11 and no change where the place is shorter.
pub fn write(kind: Kind, a: u8, rows: &[RowFigures], out: &mut [u8]) -> Result<usize, Refusal>
    requires { (length rows.now ≤ most_rows) × EachFits rows.now }
    ensures { PlaceLeft (Ok (pages kind a rows.now)) out.old out.new result }
{
    if out.len() < pages_length(rows.len()) {
        return Err(Refusal::PlaceTooShort);
    }
    Ok(put_pages(kind, a, rows, out))
}

// The page or the two pages of an accepted sheet into a lent place, or 11.
pub fn sheet_page(s: Sheet, out: &mut [u8]) -> Result<usize, Refusal>
    requires { Standing s }
    ensures { PlaceLeft (Ok (pages_of (value_of s))) out.old out.new result }
{
    let all = rows::all_figures(s);
    let head = s.head;
    let kind = head.kind;
    write(kind, head.a, &all[..head.rows], out)
}
