// What is asked of the rows of an accepted sheet: the figures of every row or of one, the row for a ceiling, and the bill of a row.
// What is answered is written in crates `model` and `tariff`; nothing is assumed.
#![tactic(auto)]

pub mod billing;
pub mod sizing;

ghost use Rattle.std.specs.Prelude.{◌≡◌, ◌<◌};
ghost use Rattle.model.specs.Standing.{Standing};
ghost use Rattle.model.specs.Values.{value_of};
ghost use Rattle.model.specs.RowAnswers.{figures_at, figures_of, all_figures};

use model::{Head, Refusal, RowFigures, Sheet};

// The figures of every row of an accepted sheet.
pub fn all_figures(s: Sheet) -> [RowFigures; Sheet::MAX_ROWS]
    requires { Standing s }
    ensures { result ≡ all_figures (value_of s) }
{
    figures::figures(s.head, &s.touches[..s.steps])
}

// The figures of a row of an accepted sheet: those of the sheet with this row alone, for which the pass has one look at a reuse.
pub fn row_alone(s: Sheet, row: usize) -> RowFigures
    requires { Standing s × (row < s.head.rows) }
    ensures { result ≡ figures_at (value_of s) row }
{
    let price = s.head.prices[row];
    let alone = Head {
        rows: 1,
        prices: [price; Sheet::MAX_ROWS],
        ..s.head
    };
    let only = figures::figures(alone, &s.touches[..s.steps]);
    only[0]
}

// The figures of a row of an accepted sheet, or 7.
pub fn sheet_figures(s: Sheet, row: usize) -> Result<RowFigures, Refusal>
    requires { Standing s }
    ensures { result ≡ figures_of (value_of s) row }
{
    if row >= s.head.rows {
        return Err(Refusal::NoSuchRow);
    }
    Ok(row_alone(s, row))
}
