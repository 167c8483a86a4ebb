// Lines with a key and a value, lines with a number, and a count with so many of them. Each function reads from the head of the bytes
// that it is lent, and gives the place of what follows.
ghost use Rattle.std.specs.Prelude.{◌≡◌, ◌+◌, ◌≤◌, length};
ghost use Rattle.text.specs.Keys.{line_feed};
ghost use Rattle.sheet.specs.Lines.{split_at, none as unsplit, number_line, number_lines};
ghost use Rattle.sheet.specs.Order.{number_part, numbers_part};
ghost use Rattle.sheet.specs.Parts.{counted};
ghost use Rattle.scan.specs.inner.AtPlace.{counted_in, number_value, ValueReads, LineReads, LinesReads, ShortReads, ListReads};

use crate::bytes;
use decimal::NumberError;
use model::Refusal;

// The value of the line with the key: the place of its first byte, and of the line feed after it.
pub fn value_line(s: &[u8], key: &[u8]) -> Result<(usize, usize), Refusal>
    requires { split_at line_feed key.now ≡ unsplit }
    ensures { ValueReads key.now s.now result }
{
    if !bytes::has_key(s, key) {
        return Err(Refusal::LineMalformed);
    }
    let start = key.len();
    match bytes::find(&s[start..], b'\n') {
        None => Err(Refusal::LineMalformed),
        Some(length) => Ok((start, start + length)),
    }
}

// The number `lo` to `hi` that the value stands for.
fn number_value(v: &[u8], lo: u32, hi: u32) -> Result<u32, Refusal>
    ensures { result ≡ number_value lo hi v.now }
{
    decimal::read(v, lo, hi).map_err(|e| match e {
        NumberError::NotNumber => Refusal::ValueMalformed,
        NumberError::OutOfRange => Refusal::OutOfRange,
    })
}

// The number `lo` to `hi` of a line with the key, where it has at most 4 digits and lies within its range, and the place of what follows
// the line. Inlined, as its callers are up to `counted_lines`: so its loops over lines call nothing, and the key is a constant there.
#[inline(always)]
fn short_line(s: &[u8], key: &[u8], lo: u32, hi: u32) -> Option<(u32, usize)>
    requires { split_at line_feed key.now ≡ unsplit }
    ensures { ShortReads s.now result (number_line key.now lo hi s.now) }
{
    if !bytes::has_key(s, key) {
        return None;
    }
    let start = key.len();
    let found = decimal::front(&s[start..])?;
    let value = found.value;
    let end = start + found.length;
    if s.len() <= end || s[end] != b'\n' || value < lo || hi < value {
        return None;
    }
    Some((value, end + 1))
}

// The number `lo` to `hi` of a line with the key that may be of another form, and the place of what follows the line. It is kept out of the
// loops over lines, most of which are short.
#[inline(never)]
fn long_line(s: &[u8], key: &[u8], lo: u32, hi: u32) -> Result<(u32, usize), Refusal>
    requires { split_at line_feed key.now ≡ unsplit }
    ensures { LineReads s.now result (number_line key.now lo hi s.now) }
{
    let (start, end) = value_line(s, key)?;
    let n = number_value(&s[start..end], lo, hi)?;
    Ok((n, end + 1))
}

// The number `lo` to `hi` of the line with the key, and the place of what follows the line.
#[inline(always)]
pub fn number_line(s: &[u8], key: &[u8], lo: u32, hi: u32) -> Result<(u32, usize), Refusal>
    requires { split_at line_feed key.now ≡ unsplit }
    ensures { LineReads s.now result (number_line key.now lo hi s.now) }
{
    match short_line(s, key, lo, hi) {
        Some(line) => Ok(line),
        None => long_line(s, key, lo, hi),
    }
}

// As many numbers `lo` to `hi` as `out` is long, one from each line with the key, and the place of what follows these lines. Where it
// refuses, `out` may be partly filled.
#[inline(always)]
fn number_lines(s: &[u8], key: &[u8], lo: u32, hi: u32, out: &mut [u16]) -> Result<usize, Refusal>
    requires key_value { split_at line_feed key.now ≡ unsplit }
    requires hi_bound { hi ≤ 65535 }
    ensures { LinesReads s.now result out.new
        (number_lines key.now lo hi (length out.old) s.now) }
{
    let mut at = 0;
    for entry in out.iter_mut() {
        let (n, next) = number_line(&s[at..], key, lo, hi)?;
        *entry = n as u16;
        at += next;
    }
    Ok(at)
}

// The line `count` with a number from `least` to the length of `out`, and so many numbers `lo` to `hi`, one from each line with the key,
// into the front of `out`: how many they are, and the place of what follows them.
#[inline(always)]
pub fn counted_lines(
    s: &[u8],
    count: &[u8],
    least: u32,
    key: &[u8],
    lo: u32,
    hi: u32,
    out: &mut [u16],
) -> Result<(usize, usize), Refusal>
    requires count_value { (split_at line_feed count.now ≡ unsplit) × (split_at line_feed key.now ≡ unsplit) }
    requires out_len_bound { (length out.old ≤ 65535) × (hi ≤ 65535) }
    ensures { ListReads s.now result (counted_in (number_line count.now least (length out.old) s.now)) out.new out.old
        ((counted (number_part count.now least (length out.old)) (numbers_part key.now lo hi)).reads s.now) }
{
    let (n, at) = number_line(s, count, least, out.len() as u32)?;
    let end = n as usize;
    let next = number_lines(&s[at..], key, lo, hi, &mut out[..end])?;
    Ok((end, at + next))
}
