// Sizing: the row to run an accepted sheet at where memory has a ceiling.
// What is answered is written in crate `model`.
ghost use Rattle.std.specs.Prelude.{◌≡◌};
ghost use Rattle.model.specs.Sizing.{sized_row, sizing};
ghost use Rattle.model.specs.Standing.{Standing};
ghost use Rattle.model.specs.Values.{value_of};

use model::{Refusal, Sheet};

// The row that sizing gives of an accepted sheet, the lowest with the least load of those within the ceiling, or 12. Along the rows optmem
// never falls, so the first row beyond the ceiling ends the pass.
pub fn sheet_size(s: Sheet, ceiling: u64) -> Result<usize, Refusal>
    requires { Standing s }
    ensures { result ≡ sizing (sized_row (value_of s) ceiling) }
{
    let all = crate::all_figures(s);
    let figures = &all[..s.head.rows];
    let mut chosen: Option<usize> = None;
    for (i, f) in figures.iter().enumerate() {
        if ceiling < f.optmem.0 {
            break;
        }
        let less = match chosen {
            Some(best) => f.load.0 < figures[best].load.0,
            None => true,
        };
        if less {
            chosen = Some(i);
        }
    }
    chosen.ok_or(Refusal::NoRowFits)
}
