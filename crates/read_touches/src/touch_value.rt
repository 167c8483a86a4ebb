// Reading one line ref= of a sheet of form 2 on, whatever its digits: segment and step, and in form 4 perhaps the letter w, for
// the root; `letters` says that the form has the letter.
ghost use Rattle.std.specs.Prelude.{ℕ, List, ◌≡◌, ◌<◌, IfOk};
ghost use Rattle.text.specs.Keys.{at_sign};
ghost use Rattle.sheet.specs.Lines.{split_at};
ghost use Rattle.sheet.specs.Touches.{touch_parts, touch_line};
ghost use Rattle.read_touches.specs.inner.TouchAtPlace.{touch_of_two, touch_before, TouchReads, TouchBounds, StepBytes};

use crate::Touch;
use decimal::NumberError;
use model::Refusal;
use scan::{bytes, numbers};

// How many bytes of `y` stand for the step: all but the letter w at their end, in a form that has it.
fn step_bytes(y: &[u8], letters: bool) -> usize
    ensures { StepBytes letters y.now result }
{
    if !letters {
        return y.len();
    }
    match bytes::find(y, b'w') {
        None => y.len(),
        Some(k) => if k + 1 == y.len() { k } else { y.len() },
    }
}

// The touch of two readings.
fn touch_of_two(
    segment: Result<u32, NumberError>,
    step: Result<u32, NumberError>,
    modifies: bool,
) -> Result<Touch, Refusal>
    requires { IfOk segment (λ n. n < 65536) }
    ensures { result ≡ touch_of_two segment step modifies }
{
    match (segment, step) {
        (Err(NumberError::NotNumber), _) | (_, Err(NumberError::NotNumber)) => {
            Err(Refusal::ValueMalformed)
        }
        (Err(NumberError::OutOfRange), _) => Err(Refusal::OutOfRange),
        (_, Err(NumberError::OutOfRange)) => Err(Refusal::StepNotAbove),
        (Ok(segment), Ok(step)) => Ok(Touch {
            segment: segment as u16,
            step: step as usize,
            modifies,
        }),
    }
}

// The touch that the value stands for, after the step `before`.
fn touch_value(
    v: &[u8],
    letters: bool,
    segs: u32,
    steps: u32,
    before: u32,
) -> Result<Touch, Refusal>
    requires { TouchBounds segs steps before }
    ensures { (rest : List ℕ) → touch_before result rest ≡ touch_parts letters segs steps before (split_at at_sign v.now) rest }
{
    match bytes::find(v, b'@') {
        None => Err(Refusal::ValueMalformed),
        Some(k) => {
            let after = k + 1;
            let end = after + step_bytes(&v[after..], letters);
            let segment = decimal::read(&v[..k], 0, segs - 1);
            let step = decimal::read(&v[after..end], before + 1, steps);
            touch_of_two(segment, step, end < v.len())
        }
    }
}

// The touch of the line ref= after the step `before`, and the place of what follows the line.
pub fn touch_line(
    s: &[u8],
    letters: bool,
    segs: u32,
    steps: u32,
    before: u32,
) -> Result<(Touch, usize), Refusal>
    requires { TouchBounds segs steps before }
    ensures { TouchReads s.now result (touch_line letters segs steps before s.now) }
{
    let (start, end) = numbers::value_line(s, b"ref=")?;
    let touch = touch_value(&s[start..end], letters, segs, steps, before)?;
    Ok((touch, end + 1))
}
