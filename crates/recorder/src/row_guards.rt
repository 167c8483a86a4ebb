// The figures of a row from the sums of a recorder that may be put together by hand, zeros where one would exceed 64 bits; and the swap
// costs of the warm segments of its head.
ghost use Rattle.std.specs.Prelude.{◌≡◌, ◌↔◌, IsTrue};
ghost use Rattle.figures.specs.inner.OneRow.{Summable, RowFits, wsocc_from, row_from};
ghost use Rattle.recorder.specs.inner.Heads.{head_swaps};

use crate::{Recorder, guards};
use figures::row_sums::Sums;
use figures::rows::StartSwaps;
use model::{Head, Kind, PriceRow, RowFigures};

// Below this an occupancy can be multiplied by 1,000.
const OCCUPANCY: u64 = 9_007_199_254_740_992;

// The occupancy of the working set at a row.
fn occupancy(kind: Kind, row: PriceRow, sums: Sums) -> u64
    requires { Summable sums }
    ensures { result ≡ wsocc_from kind row sums }
{
    let set = sums.working_set(row);
    figures::row_sums::by_kind(kind, set.space, set.memory)
}

// Whether the sums are such that an occupancy can be made of them.
fn summable(sums: Sums) -> bool
    ensures { IsTrue result ↔ Summable sums }
{
    sums.cost.0 <= guards::RETENTION
        && sums.volume <= guards::RETENTION
        && guards::holds(sums.all, guards::ITEMS)
        && guards::holds(sums.kept, Recorder::MAX_STEPS as u64)
        && guards::holds(sums.ends, Recorder::MAX_SEGS as u64)
        && guards::within(sums.all, sums.kept, sums.ends)
}

// Whether no figure of a row from the sums exceeds 64 bits.
fn fits(kind: Kind, row: PriceRow, steps: usize, sums: Sums) -> bool
    ensures { IsTrue result ↔ RowFits kind row steps sums }
{
    steps <= Recorder::MAX_STEPS
        && 0 < row.d
        && summable(sums)
        && occupancy(kind, row, sums) < OCCUPANCY
}

// The figures of a row from the sums, where none exceeds 64 bits; else zeros.
pub fn row_of(kind: Kind, a: u8, row: PriceRow, steps: usize, sums: Sums) -> RowFigures
    ensures { RowFits kind row steps sums → result ≡ row_from kind a row steps sums }
{
    if fits(kind, row, steps, sums) {
        sums.figures(kind, a, row, steps)
    } else {
        RowFigures::zero()
    }
}

// The swap costs of the warm segments of a head.
pub fn start_now(head: Head) -> StartSwaps
    ensures { result ≡ head_swaps head }
{
    let segs = head.segs.min(Recorder::MAX_SEGS);
    let count = head.warm.min(Recorder::MAX_SEGS);
    figures::rows::start_swaps(head.a, &head.sizes[..segs], &head.holds[..count])
}
