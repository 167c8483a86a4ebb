// The head of a sheet: its kind, a, the sizes, the rows and the warm segments. Each function reads from the head of the bytes that it is
// lent, and gives the place of what follows. Where one refuses, the head that it was lent may be partly filled.
ghost use Rattle.std.specs.Prelude.{◌≡◌, ℕ, List, false};
ghost use Rattle.sheet.specs.Order.{kind_for, tables_part, head_part};
ghost use Rattle.sheet.specs.Values.{kind_of, kind_line};
ghost use Rattle.scan.specs.inner.AtPlace.{LineReads};
ghost use Rattle.read_sheet.specs.inner.HeadsAtPlace.{BlankHead, HeadReads};
ghost use Rattle.read_sheet.specs.inner.Values.{parsed};

use model::{Head, Kind, Refusal, Sheet};
use scan::{bytes, numbers};

// The kind that the value names.
fn kind_value(v: &[u8]) -> Result<Kind, Refusal>
    ensures { (rest : List ℕ) → parsed result rest ≡ kind_of v.now rest }
{
    if bytes::same(v, b"time") {
        return Ok(Kind::Time);
    }
    if bytes::same(v, b"space") {
        return Ok(Kind::Space);
    }
    Err(Refusal::ValueMalformed)
}

// The kind of the line kind=, and the place of what follows the line.
fn kind_line(s: &[u8]) -> Result<(Kind, usize), Refusal>
    ensures { LineReads s.now result (kind_line s.now) }
{
    let (start, end) = numbers::value_line(s, b"kind=")?;
    let kind = kind_value(&s[start..end])?;
    Ok((kind, end + 1))
}

// The same for a sheet whose form is taken or is not.
fn kind_for(s: &[u8], taken: bool) -> Result<(Kind, usize), Refusal>
    ensures { LineReads s.now result ((kind_for taken).reads s.now) }
{
    let line = kind_line(s)?;
    if taken {
        return Ok(line);
    }
    Err(Refusal::OutOfRange)
}

// The sizes and the rows into a head that has its kind and a.
fn cold_lines(s: &[u8], head: &mut Head) -> Result<usize, Refusal>
    requires { BlankHead head.old }
    ensures holds_kept { head.new.holds ≡ head.old.holds }
    ensures tables { HeadReads s.now result head.new ((tables_part false head.old.kind head.old.a).reads s.now) }
{
    let (segs, at) = numbers::counted_lines(
        s,
        b"segs=",
        1,
        b"size=",
        1,
        Sheet::MAX_SIZE,
        &mut head.sizes,
    )?;
    head.segs = segs;
    let (rows, next) = crate::row_lines::price_lines(&s[at..], &mut head.prices)?;
    head.rows = rows;
    Ok(at + next)
}

// The same and, in a later form, the warm segments.
fn table_lines(s: &[u8], later: bool, head: &mut Head) -> Result<usize, Refusal>
    requires { BlankHead head.old }
    ensures { HeadReads s.now result head.new ((tables_part later head.old.kind head.old.a).reads s.now) }
{
    let at = cold_lines(s, head)?;
    if !later {
        return Ok(at);
    }
    let (warm, next) = crate::warm_lines::warm_lines(&s[at..], head.segs, &mut head.holds)?;
    head.warm = warm;
    Ok(at + next)
}

// The head of a sheet whose form is taken or is not, and is a later one, with warm segments, or is not.
pub fn head_lines(s: &[u8], taken: bool, later: bool, head: &mut Head) -> Result<usize, Refusal>
    requires { BlankHead head.old }
    ensures { HeadReads s.now result head.new ((head_part taken later).reads s.now) }
{
    let (kind, first) = kind_for(s, taken)?;
    let (a, second) = numbers::number_line(&s[first..], b"a=", 0, Sheet::MAX_A)?;
    head.kind = kind;
    head.a = a as u8;
    let at = first + second;
    let next = table_lines(&s[at..], later, head)?;
    Ok(at + next)
}
