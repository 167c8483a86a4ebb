// Reading schedules: which segments a step holds, and which it touches.
ghost use Rattle.std.specs.Prelude.{◌≡◌, ◌+◌, ◌*◌, ◌/◌, ◌%◌, ◌<◌, length, get_or};
ghost use Rattle.model.specs.Schedules.{bit};
ghost use Rattle.schedule.specs.inner.Segments.{segment_of};

use crate::Schedule;

// The segment of an entry of so many segments, if it is one.
pub fn segment_of(segs: usize, entry: u16) -> Option<usize>
    ensures { result ≡ segment_of segs entry }
{
    let i = entry as usize;
    if i < segs { Some(i) } else { None }
}

// Whether the step at place t of a schedule holds segment i.
pub fn holds(schedule: &[u8], t: usize, i: usize) -> bool
    requires { 32 * t + i / 8 < length schedule.now }
    ensures { result ≡ bit (get_or schedule.now (32 * t + i / 8) 0) (i % 8) }
{
    (schedule[Schedule::STEP_BYTES * t + i / 8] >> (i % 8)) % 2 == 1
}
