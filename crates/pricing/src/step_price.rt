// Checking and pricing one step of a schedule handed in, by the costs of the steps before it: only the segments whose bits changed against
// the step before are looked at. What a fault is, and what a step adds, is written in specs/.
ghost use Rattle.std.specs.Prelude.{◌≡◌, not, length, get_or, cond, ◌+◌, ◌*◌, ◌^◌, ◌≤◌, ◌<◌};
ghost use Rattle.model.specs.Costs.{unit_cost};
ghost use Rattle.schedule.specs.inner.Runs.{trace};
ghost use Rattle.schedule.specs.inner.Segments.{chosen};
ghost use Rattle.pricing.specs.inner.Steps.{Step, Touches, Through, After};
ghost use Rattle.pricing.specs.inner.Passing.{unit_at, lacks, loaded_size, SegmentsPassed, PassedTo, Passed, Moved};

use crate::held_bits::Handed;
use model::{Amount, LoadUnits, MemoryUnits, Refusal};

// What the steps priced so far come to: the cost for one step of what is held now, the memory and the load.
#[derive(Clone, Copy)]
pub struct Costs {
    pub held: MemoryUnits,
    pub memory: MemoryUnits,
    pub load: LoadUnits,
}

impl Handed<'_> {
    // What segment i costs for one step: 0 where i is no segment.
    fn unit_at(&self, i: usize) -> MemoryUnits
        ensures { (result.0 ≡ unit_at self.now.run.kind self.now.run.sizes.now i) × (result.0 < 65536) }
    {
        if i < self.run.sizes.len() {
            return model::unit_cost(self.run.kind, self.run.sizes[i]);
        }
        MemoryUnits(0)
    }

    // The cost of those that left, with one number i more whose bit changed: it left where `old`, its bit in the step before, is set, else
    // it entered, which only the touched segment may.
    fn pass(
        &self,
        touched: Option<usize>,
        i: usize,
        old: bool,
        left: MemoryUnits,
    ) -> Result<MemoryUnits, Refusal>
        requires { left.0 < 2 ^ 40 }
        ensures { Passed old touched i (unit_at self.now.run.kind self.now.run.sizes.now i) left.0 result }
    {
        if old {
            return Ok(left.plus(self.unit_at(i)));
        }
        match touched {
            Some(x) if x == i => Ok(left),
            _ => Err(Refusal::HeldNotBefore),
        }
    }

    // The cost of those that left, with segments 64 × m to 64 × m + 63 more: a run of bits that did not change is passed at once.
    fn pass_word(
        &self,
        t: usize,
        touched: Option<usize>,
        m: usize,
        left: MemoryUnits,
    ) -> Result<MemoryUnits, Refusal>
        requires step { Touches (trace self.now.run) self.now.start self.now.schedule.now t touched }
        requires m_bound { m < 4 }
        requires passed { SegmentsPassed (trace self.now.run) self.now.schedule.now t (64 * m) left.0 }
        ensures { PassedTo (trace self.now.run) self.now.schedule.now t (64 * m + 64) result }
    {
        let mut old = self.word_at(t, m);
        let mut new = self.word_at(t + 1, m);
        let mut i = 64 * m;
        let mut left = left;
        // From one changed bit to the next: no count over a range.
        while (old ^ new) != 0 {
            let same = u64::trailing_zeros(old ^ new);
            let o = old >> same;
            let n = new >> same;
            let next = i + same as usize;
            left = self.pass(touched, next, o % 2 == 1, left)?;
            old = o / 2;
            new = n / 2;
            i = next + 1;
        }
        Ok(left)
    }

    // What those cost for one step that left in the step at place t, which touches that segment, if any.
    fn pass_step(&self, t: usize, touched: Option<usize>) -> Result<MemoryUnits, Refusal>
        requires { Touches (trace self.now.run) self.now.start self.now.schedule.now t touched }
        ensures { PassedTo (trace self.now.run) self.now.schedule.now t 256 result }
    {
        let mut left = MemoryUnits(0);
        for m in 0..4 {
            left = self.pass_word(t, touched, m, left)?;
        }
        Ok(left)
    }

    // The costs with a step more that loads a segment of that size, if any, where those that left cost so much for one step.
    fn moved(&self, loaded: Option<u16>, left: MemoryUnits, c: Costs) -> Costs
        requires held_bound { (c.held.0 < 2 ^ 40) × (c.memory.0 < 2 ^ 40) × (c.load.0 < 2 ^ 40) }
        requires left_bound { left.0 ≤ c.held.0 + chosen loaded (unit_cost self.now.run.kind) 0 }
        ensures { Moved self.now.run.kind self.now.run.a loaded left.0 c result }
    {
        let (unit, swap) = match loaded {
            Some(z) => (
                model::unit_cost(self.run.kind, z),
                model::swap_cost(self.run.a, z),
            ),
            None => (MemoryUnits(0), LoadUnits(0)),
        };
        let held = c.held.plus(unit).minus(left);
        Costs {
            held,
            memory: c.memory.plus(held),
            load: c.load.plus(swap),
        }
    }

    // Whether the step at place t touches that segment and does not hold it.
    fn lacks(&self, t: usize, touched: Option<usize>) -> bool
        requires { Touches (trace self.now.run) self.now.start self.now.schedule.now t touched }
        ensures { result ≡ lacks self.now.start self.now.schedule.now t touched }
    {
        match touched {
            Some(x) => !self.holds(t + 1, x),
            None => false,
        }
    }

    // The size of the segment that the step at place t loads, if any: the touched one where it was not held before.
    fn loaded(&self, t: usize, touched: Option<usize>) -> Option<u16>
        requires { Touches (trace self.now.run) self.now.start self.now.schedule.now t touched }
        ensures { result ≡ loaded_size self.now.run.sizes.now self.now.start self.now.schedule.now t touched }
    {
        match touched {
            Some(x) if !self.holds(t, x) => Some(self.run.sizes[x]),
            _ => None,
        }
    }

    // The costs with one step more, at place t.
    pub fn step(&self, t: usize, c: Costs) -> Result<Costs, Refusal>
        requires step { Step (trace self.now.run) self.now.start self.now.schedule.now t }
        requires through { Through (trace self.now.run) self.now.schedule.now t c }
        ensures { After (trace self.now.run) self.now.schedule.now t result }
    {
        let touched = schedule::reading::segment_of(self.run.sizes.len(), self.run.refs[t]);
        if self.lacks(t, touched) {
            return Err(Refusal::TouchedNotHeld);
        }
        let left = self.pass_step(t, touched)?;
        Ok(self.moved(self.loaded(t, touched), left, c))
    }
}
