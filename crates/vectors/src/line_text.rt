// The number of a line, its text as bytes, and where a byte stands in it.
ghost use Rattle.std.specs.Prelude.{ℕ, ◌≡◌, ◌≢◌, ◌<◌, ◌≤◌, length, slice_index};

// The first place from `at` on, and before `end`, that has the byte; `end` where none has.
pub fn find(s: &[u8], at: usize, end: usize, byte: u8) -> usize
    requires { (at ≤ end) × (end ≤ length s.now) }
    ensures bounds { (at ≤ result) × (result ≤ end) }
    ensures before { (k : ℕ) → at ≤ k → k < result → slice_index s.now k ≢ byte }
    ensures found { result < end → slice_index s.now result ≡ byte }
{
    for i in at..end {
        if s[i] == byte {
            return i;
        }
    }
    end
}

// The number after the last blank. One of more than 64 bits comes out wrong.
pub fn number(head: &[u8]) -> u64 {
    let mut n: u64 = 0;
    for b in head {
        n = (n % 1844674407370955162 * 10).wrapping_add((b % 16) as u64);
        if *b == 32 {
            n = 0;
        }
    }
    n
}

// The byte that a byte of a text stands for.
fn value(b: u8) -> u8 {
    match b {
        b';' => 10,
        b'^' => 13,
        b'_' => 0,
        b'A' => 1,
        b'B' => 2,
        b'C' => 3,
        b'D' => 4,
        b'&' => 128,
        b'*' => 170,
        b'~' => 255,
        _ => b,
    }
}

// Puts a text, without the colon, the blank and the line feed, so many times into a place from `at` on, as far as it has room. Gives the
// place after it.
pub fn put(place: &mut [u8], at: usize, text: &[u8], times: u64) -> usize {
    if text.len() < 4 {
        return at;
    }
    let each = (text.len() - 3) as u64;
    let bytes = times % 65536 * (each % 65536);
    let mut to = at;
    for k in 0..bytes {
        let b = value(text[2 + (k % each) as usize]);
        if to < place.len() {
            place[to] = b;
            to += 1;
        }
    }
    to
}
