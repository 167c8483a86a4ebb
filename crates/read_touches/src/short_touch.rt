// Reading one line ref= of a sheet of form 2 on whose numbers have at most 4 digits: segment and step, and in form 4 perhaps the letter w,
// for the root; `letters` says that the form has the letter.
ghost use Rattle.std.specs.Prelude.{◌≤◌, IfSome};
ghost use Rattle.model.specs.Sheets.{most_segs};
ghost use Rattle.sheet.specs.Touches.{touch_line};
ghost use Rattle.read_touches.specs.inner.TouchAtPlace.{NumberBefore, StepBefore, ShortTouchReads};

use crate::Touch;
use decimal::Run;
use scan::bytes;

// The step at the end of a short line, whether the letter w follows it, and the place of what follows the line.
#[derive(Clone, Copy)]
struct StepShort {
    step: u32,
    modifies: bool,
    next: usize,
}

// A number of at most 4 digits at the front of `s`, where the byte `mark` follows it.
fn number_before(s: &[u8], mark: u8) -> Option<Run>
    ensures { IfSome result (λ r. NumberBefore s.now mark r) }
{
    let found = decimal::front(s)?;
    if s.len() <= found.length || s[found.length] != mark {
        return None;
    }
    Some(found)
}

// A step of at most 4 digits at the front of `s`, where a line feed follows it or, in a form that has the letter w, that letter and a line
// feed.
fn step_before(s: &[u8], letters: bool) -> Option<StepShort>
    ensures { IfSome result (λ r. StepBefore s.now letters r) }
{
    let found = decimal::front(s)?;
    let step = found.value;
    let length = found.length;
    if s.len() <= length {
        return None;
    }
    let next = length + 1;
    if s[length] == b'\n' {
        return Some(StepShort {
            step,
            modifies: false,
            next,
        });
    }
    if !letters || s[length] != b'w' || s.len() <= next || s[next] != b'\n' {
        return None;
    }
    Some(StepShort {
        step,
        modifies: true,
        next: next + 1,
    })
}

// The touch of the line ref= after the step `before`, where its numbers have at most 4 digits and lie within their ranges, and the place of
// what follows the line.
pub fn short_touch(
    s: &[u8],
    letters: bool,
    segs: u32,
    steps: u32,
    before: u32,
) -> Option<(Touch, usize)>
    requires { segs ≤ most_segs }
    ensures { ShortTouchReads s.now result (touch_line letters segs steps before s.now) }
{
    if !bytes::has_key(s, b"ref=") {
        return None;
    }
    let first = number_before(&s[4..], b'@')?;
    let at = 4 + first.length + 1;
    let second = step_before(&s[at..], letters)?;
    let segment = first.value;
    let step = second.step;
    if segs <= segment || step <= before || steps < step {
        return None;
    }
    let touch = Touch {
        segment: segment as u16,
        step: step as usize,
        modifies: second.modifies,
    };
    Some((touch, at + second.next))
}
