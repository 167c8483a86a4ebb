// A reader goes along a sheet line by line and shows the key and the value of each line as a part of the sheet itself. The functions over
// a `Reader` are thin: the work is done on the slice and the place. What they show is written in specs/; nothing is assumed.
#![tactic(auto)]

ghost use Rattle.std.specs.Prelude.{◌≡◌, leb, length, drop};
ghost use Rattle.sheet.specs.Lines.{split_at};
ghost use Rattle.reader.specs.Along.{left_after};
ghost use Rattle.reader.specs.Parts.{part_before, part_after, line_of, line_key, line_value, place_after};

use scan::bytes;

// A place in a sheet.
#[derive(Clone, Copy)]
pub struct Reader<'a> {
    pub src: &'a [u8],
    pub at: usize,
}

// What stands before the first byte `c`, nothing where there is none.
fn before(s: &[u8], c: u8) -> &[u8]
    ensures { result.now ≡ part_before (split_at c s.now) }
{
    match bytes::find(s, c) {
        None => &s[..0],
        Some(k) => &s[..k],
    }
}

// What stands after the first byte `c`, nothing where there is none.
fn after(s: &[u8], c: u8) -> &[u8]
    ensures { result.now ≡ part_after (split_at c s.now) }
{
    match bytes::find(s, c) {
        None => &s[..0],
        Some(k) => &s[k + 1..],
    }
}

// What is left from the place `at` on.
fn rest(s: &[u8], at: usize) -> &[u8]
    ensures { result.now ≡ drop at s.now }
{
    &s[at.min(s.len())..]
}

// The line at the place `at`.
fn line_at(s: &[u8], at: usize) -> &[u8]
    ensures { result.now ≡ line_of (drop at s.now) }
{
    before(rest(s, at), b'\n')
}

// The key of the line at the place `at`.
pub fn key_at(s: &[u8], at: usize) -> &[u8]
    ensures { result.now ≡ line_key (drop at s.now) }
{
    before(line_at(s, at), b'=')
}

// The value of the line at the place `at`.
pub fn value_at(s: &[u8], at: usize) -> &[u8]
    ensures { result.now ≡ line_value (drop at s.now) }
{
    after(line_at(s, at), b'=')
}

// The place of what follows the line at the place `at`.
pub fn place_after(s: &[u8], at: usize) -> usize
    ensures { result ≡ place_after s.now at }
{
    let left = after(rest(s, at), b'\n');
    s.len() - left.len()
}

// Whether nothing is left from the place `at` on.
pub fn ends_at(s: &[u8], at: usize) -> bool
    ensures { result ≡ leb (length s.now) at }
{
    s.len() <= at
}

impl<'a> Reader<'a> {
    // A reader at the start of a sheet.
    pub fn new(src: &'a [u8]) -> Reader<'a>
        ensures { (result.src ≡ src.entry) × (result.at ≡ 0) }
    {
        Reader { src, at: 0 }
    }

    // The key of the line at the reader's place.
    pub fn key(self) -> &'a [u8]
        ensures { result.now ≡ line_key (drop self.entry.at self.entry.src.now) }
    {
        key_at(self.src, self.at)
    }

    // The value of the line at the reader's place.
    pub fn value(self) -> &'a [u8]
        ensures { result.now ≡ line_value (drop self.entry.at self.entry.src.now) }
    {
        value_at(self.src, self.at)
    }

    // The reader moved past the line at its place, to the end where there is none.
    pub fn next(self) -> Reader<'a>
        ensures { (result.src ≡ self.entry.src) × (result.at ≡ place_after self.entry.src.now self.entry.at) }
    {
        let at = place_after(self.src, self.at);
        Reader { src: self.src, at }
    }

    // Whether nothing is left before the reader.
    pub fn at_end(self) -> bool
        ensures { result ≡ leb (length self.entry.src.now) self.entry.at }
    {
        ends_at(self.src, self.at)
    }
}

// The value of line `n`, counted from 0: a reader goes along `n` lines and shows the value of the next.
fn value_along(s: &[u8], n: usize) -> &[u8]
    ensures { result.now ≡ line_value (left_after n s.now) }
{
    let mut r = Reader::new(s);
    for _ in 0..n {
        r = r.next();
    }
    r.value()
}

// The same in time linear in the bytes, whatever `n` is: there are no more lines than bytes.
pub fn value_of(s: &[u8], n: usize) -> &[u8]
    ensures { result.now ≡ line_value (left_after n s.now) }
{
    if s.len() < n {
        return &s[..0];
    }
    value_along(s, n)
}
