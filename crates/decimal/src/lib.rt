// Decimal numbers in bytes: reading one within bounds, and writing one.
// What a number and its digits are is written in specs/. Nothing is assumed.
#![tactic(auto)]

ghost use Rattle.std.specs.Prelude.{◌≡◌, ◌&&◌, ◌++◌, ◌+◌, ◌*◌, ◌-◌, ◌/◌, ◌%◌, ◌≤◌, ◌<◌, min, length, take, drop, set, IfSome};
ghost use Rattle.decimal.specs.Decimal.{all_digits, is_number, written, reading_of};
ghost use Rattle.decimal.specs.inner.FrontNumber.{FrontNumber};

// Why bytes are no number within bounds.
#[derive(Clone, Copy, Debug, PartialEq, Eq)]
pub enum NumberError {
    // They are not a number.
    NotNumber,
    // They are a number outside the bounds.
    OutOfRange,
}

// Whether `s` has a byte and no leading zero: what a number has besides being digits.
fn begins(s: &[u8]) -> bool
    ensures { is_number s.now ≡ (result && all_digits s.now) }
{
    match s {
        [] => false,
        [_] => true,
        [first, ..] => *first != b'0',
    }
}

// The value `v` with the digit `b` put after it, cut off at `hi + 1`.
fn pushed(v: u64, b: u8, hi: u32) -> u64
    requires { (v ≤ hi + 1) × (48 ≤ b) × (b ≤ 57) }
    ensures { result ≡ min (v * 10 + (b - 48)) (hi + 1) }
{
    (v * 10 + u64::from(b - b'0')).min(u64::from(hi) + 1)
}

// The number that the bytes `s` write, of any length, where it lies from `lo` to `hi`.
pub fn read(s: &[u8], lo: u32, hi: u32) -> Result<u32, NumberError>
    ensures { result ≡ reading_of lo hi s.now }
{
    if !begins(s) {
        return Err(NumberError::NotNumber);
    }
    let mut v: u64 = 0;
    for b in s {
        if !b.is_ascii_digit() {
            return Err(NumberError::NotNumber);
        }
        v = pushed(v, *b, hi);
    }
    if v < u64::from(lo) || u64::from(hi) < v {
        return Err(NumberError::OutOfRange);
    }
    Ok(v as u32)
}

// A number at the front of bytes: how many digits it has, and its value.
#[derive(Clone, Copy, Debug, PartialEq, Eq)]
pub struct Run {
    pub length: usize,
    pub value: u32,
}

// A number of at most 4 digits at the front of `s`, for the reader of short lines. Where `s` has fewer than 4 bytes it gives none.
pub fn front(s: &[u8]) -> Option<Run>
    ensures { IfSome result (λ r. FrontNumber s.now r) }
{
    if s.len() < 4 || !s[0].is_ascii_digit() {
        return None;
    }
    if s[0] == b'0' {
        return Some(Run {
            length: 1,
            value: 0,
        });
    }
    let mut value = (s[0] - b'0') as u32;
    for length in 1..4 {
        let b = s[length];
        if !b.is_ascii_digit() {
            return Some(Run { length, value });
        }
        value = value * 10 + (b - b'0') as u32;
    }
    Some(Run { length: 4, value })
}

// How many digits `n` is written with: the least w, from 1 on, with n below 10 to the power w. Each power is ten times the last, from 1
// on; a number that 19 powers do not exceed has 20 digits, as 64 bits hold no more.
pub fn width(n: u64) -> usize
    ensures { result ≡ length (written n) }
{
    let mut power: u64 = 1;
    for w in 1..20 {
        power *= 10;
        if n < power {
            return w;
        }
    }
    20
}

// Writes the two digits of `pair` into `out` at the places `at` and `at + 1`.
fn put_pair(pair: u8, out: &mut [u8], at: usize)
    requires { (pair < 100) × (at + 2 ≤ length out.old) }
    ensures { out.new ≡ set (set out.old (at + 1) (48 + pair % 10)) at (48 + pair / 10) }
{
    out[at + 1] = 48 + pair % 10;
    out[at] = 48 + pair / 10;
}

// Writes the digits of `n` into `out` from the place `at` on, the last two first, and gives the place after them. The other bytes of `out`
// stay.
pub fn write(n: u64, out: &mut [u8], at: usize) -> usize
    requires { at + length (written n) ≤ length out.old }
    ensures { (result ≡ at + length (written n))
        × (out.new ≡ take at out.old ++ (written n ++ drop (at + length (written n)) out.old)) }
{
    let w = width(n);
    let mut rest = n;
    let mut left = w;
    // Two digits go at each turn, until fewer than three are left: no count over a range.
    while 100 <= rest {
        left -= 2;
        put_pair((rest % 100) as u8, out, at + left);
        rest /= 100;
    }
    if rest < 10 {
        out[at] = 48 + rest as u8;
        return at + w;
    }
    put_pair(rest as u8, out, at);
    at + w
}
