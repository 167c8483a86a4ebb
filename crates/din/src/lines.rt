// Reading one line of a din trace at the head of bytes: the label, the blank, the digits of the address, the line feed.
// What the lines are is written in specs/.
ghost use Rattle.std.specs.Prelude.{◌≡◌, ◌≤◌, length};
ghost use Rattle.model.specs.Sums.{tabulate};
ghost use Rattle.din.specs.Lines.{trace_lines, digit_of};
ghost use Rattle.din.specs.inner.FirstLine.{first_of, first_after, first_at, NextWithin};

// A line at the head of bytes: its address, and the place of what follows the line.
#[derive(Clone, Copy)]
pub struct LineAt {
    pub address: u32,
    pub next: usize,
}

impl LineAt {
    // The most digits of an address.
    const MAX_DIGITS: usize = 8;
}

// The value of a hexadecimal digit of either case, 16 for any other byte: how far the byte stands past "0", "A" and "a". So each
// range is one comparison, and the compiler enters the table below without a branch.
fn digit(b: u8) -> u8
    ensures { result ≡ digit_of b }
{
    let past_0 = b.wrapping_sub(b'0');
    let past_upper = b.wrapping_sub(b'A');
    let past_lower = b.wrapping_sub(b'a');
    if past_0 < 10 {
        return past_0;
    }
    if past_upper < 6 {
        return past_upper + 10;
    }
    if past_lower < 6 {
        return past_lower + 10;
    }
    16
}

// The values of the 256 bytes as digits, made once for all lines: looked up without a branch.
pub fn digit_values() -> [u8; 256]
    ensures { result ≡ tabulate 256 digit_of }
{
    let mut values = [0; 256];
    for b in 0..256 {
        values[b] = digit(b as u8);
    }
    values
}

// The address that the digits at the head of `s` stand for, up to their line feed; none where they are malformed.
fn address(s: &[u8], values: &[u8; 256]) -> Option<LineAt>
    requires { values.now ≡ tabulate 256 digit_of }
    ensures result_value { first_at s.now result ≡ first_after 0 0 (trace_lines s.now) }
    ensures next_within { NextWithin s.now result }
{
    let mut address = 0;
    for (n, b) in s.iter().enumerate() {
        if *b == b'\n' {
            if n == 0 {
                return None;
            }
            return Some(LineAt {
                address,
                next: n + 1,
            });
        }
        if n == LineAt::MAX_DIGITS {
            return None;
        }
        let d = values[usize::from(*b)];
        if d == 16 {
            return None;
        }
        address = address * 16 + u32::from(d);
    }
    None
}

// The line at the head of `s`; none where it is malformed.
pub fn line(s: &[u8], values: &[u8; 256]) -> Option<LineAt>
    requires { (1 ≤ length s.now) × (values.now ≡ tabulate 256 digit_of) }
    ensures result_value { first_at s.now result ≡ first_of (trace_lines s.now) }
    ensures next_within { NextWithin s.now result }
{
    let [b'0'..=b'2', b' ', digits @ ..] = s else {
        return None;
    };
    let found = address(digits, values)?;
    Some(LineAt {
        next: found.next + 2,
        ..found
    })
}
