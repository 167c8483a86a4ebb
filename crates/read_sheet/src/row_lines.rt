// Lines with a row of prices, and the count with so many of them. Each function reads from the head of the bytes that it is lent, and
// gives the place of what follows.
ghost use Rattle.std.specs.Prelude.{◌≡◌, ◌≤◌, List, ℕ, length, IfOk};
ghost use Rattle.std.proofs.Math.Option.{none};
ghost use Rattle.model.specs.Sheets.{most_rows, largest_price};
ghost use Rattle.model.specs.Values.{zero_rows};
ghost use Rattle.text.specs.Keys.{rows_key, slash};
ghost use Rattle.sheet.specs.Lines.{split_at, number_line};
ghost use Rattle.sheet.specs.Order.{prices_part};
ghost use Rattle.sheet.specs.Values.{above, row_after, row_parts, row_line, row_lines};
ghost use Rattle.scan.specs.inner.AtPlace.{counted_in, LineReads, LinesReads, ListReads};
ghost use Rattle.read_sheet.specs.inner.RowsAtPlace.{row_of_readings};
ghost use Rattle.read_sheet.specs.inner.Values.{before, parsed};

use decimal::NumberError;
use model::{PriceRow, Refusal, Sheet};
use scan::{bytes, numbers};

// Whether the threshold of the row exceeds that of the row before it, where there is one.
fn exceeds(prev: Option<PriceRow>, row: PriceRow) -> bool
    ensures { result ≡ above (before prev) row }
{
    match prev {
        None => true,
        Some(p) => (p.h as u64) * (row.d as u64) < (row.h as u64) * (p.d as u64),
    }
}

// The row after the row before it.
fn row_after(prev: Option<PriceRow>, row: PriceRow) -> Result<PriceRow, Refusal>
    ensures { (rest : List ℕ) → parsed result rest ≡ row_after (before prev) row rest }
{
    if exceeds(prev, row) {
        return Ok(row);
    }
    Err(Refusal::ThresholdNotAbove)
}

// The row of the two readings after the row before it. That one is no number comes first, and then that one lies outside its range.
fn row_of(
    prev: Option<PriceRow>,
    x: Result<u32, NumberError>,
    y: Result<u32, NumberError>,
) -> Result<PriceRow, Refusal>
    requires x_bound { IfOk x (λ h. h ≤ largest_price) }
    requires y_bound { IfOk y (λ d. d ≤ largest_price) }
    ensures { (rest : List ℕ) → parsed result rest ≡ row_of_readings (before prev) x y rest }
{
    match (x, y) {
        (Ok(h), Ok(d)) => row_after(
            prev,
            PriceRow {
                h: h as u16,
                d: d as u16,
            },
        ),
        (Err(NumberError::NotNumber), _) => Err(Refusal::ValueMalformed),
        (_, Err(NumberError::NotNumber)) => Err(Refusal::ValueMalformed),
        _ => Err(Refusal::OutOfRange),
    }
}

// The row that the value stands for after the row before it.
fn row_value(prev: Option<PriceRow>, v: &[u8]) -> Result<PriceRow, Refusal>
    ensures { (rest : List ℕ) → parsed result rest ≡ row_parts (before prev) (split_at slash v.now) rest }
{
    match bytes::find(v, b'/') {
        None => Err(Refusal::ValueMalformed),
        Some(k) => {
            let x = decimal::read(&v[..k], 0, Sheet::MAX_PRICE);
            let y = decimal::read(&v[k + 1..], 1, Sheet::MAX_PRICE);
            row_of(prev, x, y)
        }
    }
}

// The row of the line row= after the row before it, and the place of what follows the line.
fn row_line(s: &[u8], prev: Option<PriceRow>) -> Result<(PriceRow, usize), Refusal>
    ensures { LineReads s.now result (row_line (before prev) s.now) }
{
    let (start, end) = numbers::value_line(s, b"row=")?;
    let row = row_value(prev, &s[start..end])?;
    Ok((row, end + 1))
}

// As many rows as `out` is long, one from each line row=, and the place of what follows these lines. Where it refuses, `out` may be partly
// filled.
fn row_lines(s: &[u8], out: &mut [PriceRow]) -> Result<usize, Refusal>
    ensures { LinesReads s.now result out.new (row_lines (length out.old) none s.now) }
{
    let mut prev = None;
    let mut at = 0;
    for place in out.iter_mut() {
        let (row, next) = row_line(&s[at..], prev)?;
        *place = row;
        prev = Some(row);
        at += next;
    }
    Ok(at)
}

// The line rows= and so many rows into the front of `out`: how many they are, and the place of what follows them.
pub fn price_lines(s: &[u8], out: &mut [PriceRow]) -> Result<(usize, usize), Refusal>
    requires { length out.old ≡ most_rows }
    ensures { ListReads s.now result (counted_in (number_line rows_key 1 most_rows s.now)) out.new out.old (prices_part.reads s.now) }
{
    let (n, at) = numbers::number_line(s, b"rows=", 1, Sheet::MAX_ROWS as u32)?;
    let end = n as usize;
    let next = row_lines(&s[at..], &mut out[..end])?;
    Ok((end, at + next))
}
