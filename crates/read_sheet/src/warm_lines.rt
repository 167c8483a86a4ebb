// The lines of the warm segments: hold= with a segment, and the count warm= with so many of them. Each function reads from the head of the
// bytes that it is lent, and gives the place of what follows.
ghost use Rattle.std.proofs.Math.Option.{none};
ghost use Rattle.std.specs.Prelude.{◌≡◌, ◌≤◌, length};
ghost use Rattle.model.specs.Sheets.{most_segs};
ghost use Rattle.text.specs.Keys.{warm_key};
ghost use Rattle.sheet.specs.Lines.{number_line};
ghost use Rattle.sheet.specs.Order.{warm_part};
ghost use Rattle.sheet.specs.Warm.{above_hold, hold_line, hold_lines};
ghost use Rattle.scan.specs.inner.AtPlace.{counted_in, LineReads, LinesReads, ListReads};
ghost use Rattle.read_sheet.specs.inner.Values.{before};

use model::Refusal;
use scan::numbers;

// Whether the segment is above the one before it, where there is one.
fn above_hold(prev: Option<u32>, n: u32) -> bool
    ensures { result ≡ above_hold (before prev) n }
{
    match prev {
        None => true,
        Some(p) => p < n,
    }
}

// The segment of the line hold= after the one before it, and the place of what follows the line.
fn hold_line(s: &[u8], segs: u32, prev: Option<u32>) -> Result<(u32, usize), Refusal>
    requires { 1 ≤ segs }
    ensures { LineReads s.now result (hold_line segs (before prev) s.now) }
{
    let (n, next) = numbers::number_line(s, b"hold=", 0, segs - 1)?;
    if above_hold(prev, n) {
        return Ok((n, next));
    }
    Err(Refusal::HoldNotAbove)
}

// A loop for both these lines and those of rows would be no plainer: a trait would have to say in ghost members what a line is, and each of
// the two to implement it.
// As many segments as `out` is long, one from each line hold=, and the place of what follows these lines. Where it refuses, `out` may be
// partly filled.
fn hold_lines(s: &[u8], segs: u32, out: &mut [u16]) -> Result<usize, Refusal>
    requires { (1 ≤ segs) × (segs ≤ most_segs) }
    ensures { LinesReads s.now result out.new (hold_lines segs (length out.old) none s.now) }
{
    let mut prev = None;
    let mut at = 0;
    for place in out.iter_mut() {
        let (n, next) = hold_line(&s[at..], segs, prev)?;
        *place = n as u16;
        prev = Some(n);
        at += next;
    }
    Ok(at)
}

// The line warm= and so many lines hold= into the front of `out`: how many they are, and the place of what follows them.
pub fn warm_lines(s: &[u8], segs: usize, out: &mut [u16]) -> Result<(usize, usize), Refusal>
    requires { (1 ≤ segs) × (segs ≤ most_segs) × (segs ≤ length out.old) }
    ensures { ListReads s.now result (counted_in (number_line warm_key 0 segs s.now)) out.new out.old ((warm_part segs).reads s.now) }
{
    let (n, at) = numbers::number_line(s, b"warm=", 0, segs as u32)?;
    let end = n as usize;
    let next = hold_lines(&s[at..], segs as u32, &mut out[..end])?;
    Ok((end, at + next))
}
