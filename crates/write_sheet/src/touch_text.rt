// Writing the entries of a sheet of form 2 on: how many steps and touches there are, and a line for each touch. A step without a touch has
// no line. `marks` says for each step whether its touch modifies, and is empty in a form without marks.
ghost use Rattle.std.specs.Prelude.{◌≡◌, Bool, cond, List, [], ◌∷◌, ◌+◌, ◌≤◌, ◌<◌, eqb, length};
ghost use Rattle.model.specs.Sheets.{idle, most_steps, marks_of};
ghost use Rattle.text.specs.Keys.{line_feed, mark_letter};
ghost use Rattle.text.specs.inner.Puts.{Put, LengthOf};
ghost use Rattle.write_sheet.specs.inner.Steps.{touches_with, steps_text};
ghost use Rattle.sheet.specs.Touches.{touches_from, touch_text, touches_text};

use model::Sheet;
use text::{number_length, put, put_digits, put_number};

// Whether the entry is that of a step without a touch.
fn is_idle(x: u16) -> bool
    ensures { result ≡ eqb x idle }
{
    x == Sheet::IDLE
}

// Whether the touch in the step at place t modifies; where there is no mark it does not.
fn modifies_at(marks: &[bool], t: usize) -> bool
    ensures { result ≡ marks_of marks.now t }
{
    marks.get(t).copied().unwrap_or(false)
}

// ---- counts and lengths

// How many touches there are, added up without a branch.
fn count_touches(entries: &[u16]) -> usize
    requires { length entries.now ≤ most_steps }
    ensures { (marks : List Bool) → result ≡ length (touches_with entries.now marks) }
{
    let mut count: u16 = 0;
    for x in entries {
        count += u16::from(!is_idle(*x));
    }
    usize::from(count)
}

// The length of the letter of a touch.
fn letter_length(modifies: bool) -> usize
    ensures { result ≡ cond modifies 1 0 }
{
    usize::from(modifies)
}

// The length of the line of a touch.
fn touch_length(x: u16, step: usize, modifies: bool) -> usize
    ensures { LengthOf (touch_text (record { segment = x; step = step; modifies = modifies })) 32 result }
{
    6 + decimal::width(x as u64) + decimal::width(step as u64) + letter_length(modifies)
}

// The length of the line of an entry, which is that of the step after `before`.
fn entry_length(x: u16, before: usize, marks: &[bool]) -> usize
    requires { before < most_steps }
    ensures { LengthOf (touches_text (touches_from (marks_of marks.now) before (x ∷ []))) 32 result }
{
    if is_idle(x) {
        return 0;
    }
    touch_length(x, before + 1, modifies_at(marks, before))
}

// The length of the lines of touches.
fn touches_length(entries: &[u16], marks: &[bool]) -> usize
    requires { length entries.now ≤ most_steps }
    ensures { LengthOf (touches_text (touches_with entries.now marks.now)) 65536 result }
{
    let mut sum: usize = 0;
    for (i, x) in entries.iter().enumerate() {
        sum += entry_length(*x, i, marks);
    }
    sum
}

// The length of the lines of the entries of form 2 on.
pub fn steps_length(entries: &[u16], marks: &[bool]) -> usize
    requires { length entries.now ≤ most_steps }
    ensures { LengthOf (steps_text entries.now marks.now) 65589 result }
{
    let refs = count_touches(entries);
    number_length(b"steps=", entries.len() as u64)
        + number_length(b"refs=", refs as u64)
        + touches_length(entries, marks)
}

// ---- lines

// The byte after the digits of a touch's step: the letter w where it modifies, else the line feed.
fn step_end(modifies: bool) -> u8
    ensures { result ≡ cond modifies mark_letter line_feed }
{
    if modifies { b'w' } else { b'\n' }
}

// Writes the line of a touch, and gives the index after it.
fn put_touch(x: u16, step: usize, modifies: bool, out: &mut [u8], at: usize) -> usize
    requires { at + length (touch_text (record { segment = x; step = step; modifies = modifies })) ≤ length out.old }
    ensures { Put (touch_text (record { segment = x; step = step; modifies = modifies }))
        at out.old result out.new }
{
    let segment = put(b"ref=", out, at);
    let second = put_digits(x as u64, b'@', out, segment);
    let end = put_digits(step as u64, step_end(modifies), out, second);
    if modifies {
        return put(b"\n", out, end);
    }
    end
}

// Writes the line of an entry, which is that of the step after `before`, and gives the index after it.
fn put_entry(x: u16, before: usize, marks: &[bool], out: &mut [u8], at: usize) -> usize
    requires { (before < most_steps)
        × (at + length (touches_text (touches_from (marks_of marks.now) before (x ∷ []))) ≤ length out.old) }
    ensures { Put (touches_text (touches_from (marks_of marks.now) before (x ∷ [])))
        at out.old result out.new }
{
    if is_idle(x) {
        return at;
    }
    let step = before + 1;
    put_touch(x, step, modifies_at(marks, before), out, at)
}

// Writes a line for each touch, and gives the index after them.
fn put_touches(entries: &[u16], marks: &[bool], out: &mut [u8], at: usize) -> usize
    requires { (length entries.now ≤ most_steps)
        × (at + length (touches_text (touches_with entries.now marks.now)) ≤ length out.old) }
    ensures { Put (touches_text (touches_with entries.now marks.now))
        at out.old result out.new }
{
    let mut next = at;
    for (i, x) in entries.iter().enumerate() {
        next = put_entry(*x, i, marks, out, next);
    }
    next
}

// Writes the lines of the entries of form 2 on, and gives the index after them.
pub fn put_steps(entries: &[u16], marks: &[bool], out: &mut [u8], at: usize) -> usize
    requires { (length entries.now ≤ most_steps) × (at + length (steps_text entries.now marks.now) ≤ length out.old) }
    ensures { Put (steps_text entries.now marks.now) at out.old result out.new }
{
    let refs = count_touches(entries);
    let second = put_number(b"steps=", entries.len() as u64, out, at);
    let first = put_number(b"refs=", refs as u64, out, second);
    put_touches(entries, marks, out, first)
}
