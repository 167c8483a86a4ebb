// Schedules: their shape, and writing them, the optimal one of a row among them.
// What a schedule is and costs is written in crate `model`; nothing is assumed.
#![tactic(auto)]

pub mod reading;
pub mod starting;
pub mod writing;

ghost use Rattle.std.specs.Prelude.{◌≡◌, cond, ◌*◌, ◌≤◌, leb};
ghost use Rattle.model.specs.Sheets.{most_steps, trace_of};
ghost use Rattle.model.specs.Standing.{Standing};
ghost use Rattle.model.specs.Values.{value_of};
ghost use Rattle.schedule.specs.inner.Runs.{trace};

use model::{Kind, Sheet};

// A run: its kind, the weight of volume a, and the lent sizes, warm segments and references.
#[derive(Clone, Copy)]
pub struct Run<'a> {
    pub kind: Kind,
    pub a: u8,
    pub sizes: &'a [u16],
    pub warm: &'a [u16],
    pub refs: &'a [u16],
}

impl<'a> Run<'a> {
    // The run of an accepted sheet.
    pub fn of_sheet(s: &'a Sheet) -> Run<'a>
        requires { Standing s.now }
        ensures { trace result ≡ trace_of (value_of s.now) }
    {
        let head = &s.head;
        Run {
            kind: head.kind,
            a: head.a,
            sizes: &head.sizes[..head.segs],
            warm: &head.holds[..head.warm],
            refs: &s.touches[..s.steps],
        }
    }
}

// The shape of a schedule of so many steps: 32 bytes a step, segment i at bit i % 8 of byte i / 8.
#[derive(Clone, Copy)]
pub struct Schedule {
    pub steps: usize,
}

impl Schedule {
    // The bytes of a step, a bit for each segment.
    pub const STEP_BYTES: usize = Sheet::MAX_SEGS / 8;
    // The bytes of the largest schedule.
    pub const MAX_BYTES: usize = Schedule::STEP_BYTES * Sheet::MAX_STEPS;

    // The schedule of a run of so many steps; of none where there are more than a run has.
    pub fn of_steps(steps: usize) -> Schedule
        ensures exact { result.steps ≡ cond (leb steps most_steps) steps 0 }
        ensures within { result.steps ≤ most_steps }
    {
        if Sheet::MAX_STEPS < steps {
            return Schedule { steps: 0 };
        }
        Schedule { steps }
    }

    // How many bytes it has.
    pub fn length(self) -> usize
        requires { self.steps ≤ most_steps }
        ensures { (result ≡ 32 * self.steps) × (result ≤ 65536) }
    {
        Schedule::STEP_BYTES * self.steps
    }
}
