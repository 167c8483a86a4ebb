// Reading the lines ref= of a sheet of form 2 on, segment and step and in form 4 perhaps the letter w, into the entries and the marks of
// its steps; `letters` says that the form has the letter. Each function reads from the head of the bytes that it is lent, and gives the
// place of what follows. Nothing is assumed.
#![tactic(auto)]

mod short_touch;
mod touch_value;

ghost use Rattle.std.specs.Prelude.{◌≡◌, ◌≤◌, ◌-◌, length, set};
ghost use Rattle.model.specs.Sheets.{most_steps};
ghost use Rattle.text.specs.Keys.{steps_key};
ghost use Rattle.sheet.specs.Lines.{number_line};
ghost use Rattle.sheet.specs.Order.{steps_part};
ghost use Rattle.sheet.specs.Touches.{entry_lines};
ghost use Rattle.scan.specs.inner.AtPlace.{counted_in};
ghost use Rattle.read_touches.specs.inner.TouchesAtPlace.{BlankEntries, BlankSteps, EntriesReads, StepsReads};
ghost use Rattle.read_touches.specs.inner.Passed.{PassedTouches, refs_lines};

use model::{Refusal, Sheet};
use scan::numbers;
use short_touch::short_touch;
use touch_value::touch_line;

// A touch: its segment, its step, counted from 1, and whether it modifies the segment.
#[derive(Clone, Copy, Debug, PartialEq, Eq)]
struct Touch {
    segment: u16,
    step: usize,
    modifies: bool,
}

impl Touch {
    // Puts the touch into the entry and the mark of its step.
    fn put(self, entries: &mut [u16], marks: &mut [bool])
        requires { (1 ≤ self.step) × (self.step ≤ length entries.old) × (self.step ≤ length marks.old) }
        ensures entry { entries.new ≡ set entries.old (self.step - 1) self.segment }
        ensures mark { marks.new ≡ set marks.old (self.step - 1) self.modifies }
    {
        entries[self.step - 1] = self.segment;
        marks[self.step - 1] = self.modifies;
    }
}

// How many lines of touches were read, the place of what follows them, and the step of the last touch, 0 where there is none.
#[derive(Clone, Copy)]
struct TouchesRead {
    count: usize,
    next: usize,
    step: usize,
}

// Reads the touches of `n` lines ref=, up to the first line that is not short, into the entries and the marks, one for each step, which are
// idle and false.
// How many lines it reads is left free: `touch_lines` reads those that are left. It is a loop of its own for speed: with the lines of both
// forms in one loop they took 1.14 times as long, and reading would pass its limit.
fn short_touches(
    s: &[u8],
    n: usize,
    letters: bool,
    segs: usize,
    entries: &mut [u16],
    marks: &mut [bool],
) -> TouchesRead
    requires { BlankEntries segs entries.old marks.old }
    ensures { PassedTouches letters segs (length entries.old) n s.now
        entries.new marks.new result.step result.next result.count }
{
    let steps = entries.len() as u32;
    let mut step = 0;
    let mut next = 0;
    for count in 0..n {
        let Some((touch, length)) = short_touch(
            &s[next..],
            letters,
            segs as u32,
            steps,
            step as u32,
        ) else {
            return TouchesRead { count, next, step };
        };
        touch.put(entries, marks);
        step = touch.step;
        next += length;
    }
    TouchesRead {
        count: n,
        next,
        step,
    }
}

// Reads the touches of `n` lines ref= into the entries and the marks, one for each step, which are idle and false. The short lines at the
// front are read by a loop of their own. Where it refuses, entries and marks may be partly filled.
fn touch_lines(
    s: &[u8],
    n: usize,
    letters: bool,
    segs: usize,
    entries: &mut [u16],
    marks: &mut [bool],
) -> Result<usize, Refusal>
    requires { BlankEntries segs entries.old marks.old }
    ensures { EntriesReads letters s.now result entries.new marks.new marks.old
        (entry_lines letters segs (length entries.old) n s.now) }
{
    let steps = entries.len() as u32;
    let front = short_touches(s, n, letters, segs, entries, marks);
    let mut step = front.step;
    let mut at = front.next;
    for i in front.count..n {
        let (touch, next) = touch_line(&s[at..], letters, segs as u32, steps, step as u32)?;
        touch.put(entries, marks);
        step = touch.step;
        at += next;
    }
    Ok(at)
}

// The line refs= and so many lines ref= into the entries and the marks, one for each step, which are idle and false: the place of what
// follows them. Where it refuses, entries and marks may be partly filled.
fn refs_lines(
    s: &[u8],
    letters: bool,
    segs: usize,
    entries: &mut [u16],
    marks: &mut [bool],
) -> Result<usize, Refusal>
    requires { BlankEntries segs entries.old marks.old }
    ensures { EntriesReads letters s.now result entries.new marks.new marks.old
        (refs_lines letters segs (length entries.old) s.now) }
{
    let (n, at) = numbers::number_line(s, b"refs=", 0, entries.len() as u32)?;
    let next = touch_lines(&s[at..], n as usize, letters, segs, entries, marks)?;
    Ok(at + next)
}

// The lines steps= and refs= and so many lines ref= into the fronts of `out` and `marks`, an entry for each step and in a form that has the
// letter w a mark; all of `out` is idle, and all of `marks` false. It gives the number of steps and the place of what follows the lines.
pub fn step_lines(
    s: &[u8],
    letters: bool,
    segs: usize,
    out: &mut [u16],
    marks: &mut [bool],
) -> Result<(usize, usize), Refusal>
    requires { BlankSteps segs out.old marks.old }
    ensures { StepsReads letters s.now result (counted_in (number_line steps_key 0 most_steps s.now)) out.new out.old
        marks.new marks.old ((steps_part letters segs).reads s.now) }
{
    let (n, at) = numbers::number_line(s, b"steps=", 0, Sheet::MAX_STEPS as u32)?;
    let end = n as usize;
    let next = refs_lines(&s[at..], letters, segs, &mut out[..end], &mut marks[..end])?;
    Ok((end, at + next))
}
