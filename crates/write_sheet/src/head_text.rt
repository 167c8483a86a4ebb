// Writing the head of a sheet: the lengths of its lines, and the lines part after part, each from an index of the lent place on.
// A count beyond its array counts the whole array. What the lines are stands in specs/Heads.antt. Numbers, rows and touches have loops of
// their own: beside its element a line takes a key, nothing, or a step and its mark, so that one loop for all would take a closure from
// each.
ghost use Rattle.std.specs.Prelude.{◌≡◌, ◌+◌, ◌≤◌, leb, length};
ghost use Rattle.model.specs.Sheets.{most_rows, most_steps};
ghost use Rattle.model.specs.Values.{head_value_of};
ghost use Rattle.text.specs.Keys.{kind_key, kind_word};
ghost use Rattle.text.specs.inner.Puts.{Put, LengthOf};
ghost use Rattle.text.specs.Texts.{line_text};
ghost use Rattle.sheet.specs.Values.{row_text};
ghost use Rattle.write_sheet.specs.inner.Heads.{counted_text, numbers_text, rows_text, segments_text, priced_text, warm_text, head_text};

use model::{Head, Kind, PriceRow};
use text::{number_length, put, put_digits, put_number};

// Whether a sheet of the form has lines of warm segments.
fn has_warm(form: u8) -> bool
    ensures { result ≡ leb 3 form }
{
    3 <= form
}

// ---- lengths

// The length of the line of a kind.
fn kind_length(kind: Kind) -> usize
    ensures { LengthOf (line_text kind_key (kind_word kind)) 11 result }
{
    match kind {
        Kind::Time => 10,
        Kind::Space => 11,
    }
}

// The length of the lines of numbers.
fn numbers_length(key: &[u8], xs: &[u16]) -> usize
    requires { (length key.now ≤ 5) × (length xs.now ≤ most_steps) }
    ensures { LengthOf (numbers_text key.now xs.now) 53248 result }
{
    let mut sum: usize = 0;
    for x in xs {
        sum += number_length(key, *x as u64);
    }
    sum
}

// The length of the line that counts the numbers, and of their lines.
pub fn counted_length(count: &[u8], key: &[u8], xs: &[u16]) -> usize
    requires { (length count.now ≤ 5) × (length key.now ≤ 5) × (length xs.now ≤ most_steps) }
    ensures { LengthOf (counted_text count.now key.now xs.now) 53274 result }
{
    number_length(count, xs.len() as u64) + numbers_length(key, xs)
}

// The length of the line of a row.
fn row_length(q: PriceRow) -> usize
    ensures { LengthOf (row_text q) 16 result }
{
    6 + decimal::width(q.h as u64) + decimal::width(q.d as u64)
}

// The length of the lines of rows.
fn rows_length(rows: &[PriceRow]) -> usize
    requires { length rows.now ≤ most_rows }
    ensures { LengthOf (rows_text rows.now) 1024 result }
{
    let mut sum: usize = 0;
    for q in rows {
        sum += row_length(*q);
    }
    sum
}

// The length of the lines from kind= to the sizes.
fn segments_length(kind: Kind, a: u8, sizes: &[u16]) -> usize
    requires { length sizes.now ≤ most_steps }
    ensures { LengthOf (segments_text kind a sizes.now) 53311 result }
{
    kind_length(kind) + number_length(b"a=", a as u64) + counted_length(b"segs=", b"size=", sizes)
}

// The length of the line that counts the rows, and of their lines.
fn priced_length(rows: &[PriceRow]) -> usize
    requires { length rows.now ≤ most_rows }
    ensures { LengthOf (priced_text rows.now) 1050 result }
{
    number_length(b"rows=", rows.len() as u64) + rows_length(rows)
}

// The length of the lines of the warm segments, which a sheet has from form 3 on.
fn warm_length(form: u8, holds: &[u16]) -> usize
    requires { length holds.now ≤ most_steps }
    ensures { LengthOf (warm_text form holds.now) 53274 result }
{
    if has_warm(form) {
        return counted_length(b"warm=", b"hold=", holds);
    }
    0
}

// The length of the lines of a head in a form.
pub fn head_length(form: u8, head: Head) -> usize
    ensures { LengthOf (head_text form (head_value_of head)) 107635 result }
{
    let kind = head.kind;
    let sizes = head.sizes;
    let segs = head.segs.min(sizes.len());
    let prices = head.prices;
    let rows = head.rows.min(prices.len());
    let holds = head.holds;
    let warm = head.warm.min(holds.len());
    segments_length(kind, head.a, &sizes[..segs])
        + priced_length(&prices[..rows])
        + warm_length(form, &holds[..warm])
}

// ---- parts

// Writes the line of a kind, and gives the index after it.
fn put_kind(kind: Kind, out: &mut [u8], at: usize) -> usize
    requires { at + length (line_text kind_key (kind_word kind)) ≤ length out.old }
    ensures { Put (line_text kind_key (kind_word kind)) at out.old result out.new }
{
    match kind {
        Kind::Time => put(b"kind=time\n", out, at),
        Kind::Space => put(b"kind=space\n", out, at),
    }
}

// Writes a line for each number, and gives the index after them.
fn put_numbers(key: &[u8], xs: &[u16], out: &mut [u8], at: usize) -> usize
    requires { at + length (numbers_text key.now xs.now) ≤ length out.old }
    ensures { Put (numbers_text key.now xs.now) at out.old result out.new }
{
    let mut next = at;
    for x in xs {
        next = put_number(key, *x as u64, out, next);
    }
    next
}

// Writes the line that counts the numbers and a line for each, and gives the index after them.
pub fn put_counted(count: &[u8], key: &[u8], xs: &[u16], out: &mut [u8], at: usize) -> usize
    requires { at + length (counted_text count.now key.now xs.now) ≤ length out.old }
    ensures { Put (counted_text count.now key.now xs.now)
        at out.old result out.new }
{
    let first = put_number(count, xs.len() as u64, out, at);
    put_numbers(key, xs, out, first)
}

// Writes the line of a row, and gives the index after it.
fn put_row(q: PriceRow, out: &mut [u8], at: usize) -> usize
    requires { at + length (row_text q) ≤ length out.old }
    ensures { Put (row_text q) at out.old result out.new }
{
    let h = put(b"row=", out, at);
    let d = put_digits(q.h as u64, b'/', out, h);
    put_digits(q.d as u64, b'\n', out, d)
}

// Writes a line for each row, and gives the index after them.
fn put_rows(rows: &[PriceRow], out: &mut [u8], at: usize) -> usize
    requires { at + length (rows_text rows.now) ≤ length out.old }
    ensures { Put (rows_text rows.now) at out.old result out.new }
{
    let mut next = at;
    for q in rows {
        next = put_row(*q, out, next);
    }
    next
}

// Writes the lines from kind= to the sizes, and gives the index after them.
fn put_segments(kind: Kind, a: u8, sizes: &[u16], out: &mut [u8], at: usize) -> usize
    requires { at + length (segments_text kind a sizes.now) ≤ length out.old }
    ensures { Put (segments_text kind a sizes.now) at out.old result out.new }
{
    let weight = put_kind(kind, out, at);
    let count = put_number(b"a=", a as u64, out, weight);
    put_counted(b"segs=", b"size=", sizes, out, count)
}

// Writes the line that counts the rows and a line for each, and gives the index after them.
fn put_priced(rows: &[PriceRow], out: &mut [u8], at: usize) -> usize
    requires { at + length (priced_text rows.now) ≤ length out.old }
    ensures { Put (priced_text rows.now) at out.old result out.new }
{
    let first = put_number(b"rows=", rows.len() as u64, out, at);
    put_rows(rows, out, first)
}

// Writes the lines of the warm segments, which a sheet has from form 3 on, and gives the index after them.
fn put_warm(form: u8, holds: &[u16], out: &mut [u8], at: usize) -> usize
    requires { at + length (warm_text form holds.now) ≤ length out.old }
    ensures { Put (warm_text form holds.now) at out.old result out.new }
{
    if has_warm(form) {
        return put_counted(b"warm=", b"hold=", holds, out, at);
    }
    at
}

// Writes the lines of a head in a form, and gives the index after them.
pub fn put_head(form: u8, head: Head, out: &mut [u8], at: usize) -> usize
    requires { at + length (head_text form (head_value_of head)) ≤ length out.old }
    ensures { Put (head_text form (head_value_of head)) at out.old result out.new }
{
    let kind = head.kind;
    let sizes = head.sizes;
    let segs = head.segs.min(sizes.len());
    let prices = head.prices;
    let rows = head.rows.min(prices.len());
    let holds = head.holds;
    let warm = head.warm.min(holds.len());
    let priced = put_segments(kind, head.a, &sizes[..segs], out, at);
    let held = put_priced(&prices[..rows], out, priced);
    put_warm(form, &holds[..warm], out, held)
}
