// The figures of all rows of a sheet from one pass over its references, that of crate `buckets`.
// Every item is the definition's of crate `model`; nothing is assumed.
#![tactic(auto)]

pub mod row_sums;
pub mod rows;

ghost use Rattle.std.specs.Prelude.{◌≡◌};
ghost use Rattle.model.specs.Sheets.{head_run};
ghost use Rattle.model.specs.Values.{head_value_of};
ghost use Rattle.model.specs.RowAnswers.{run_figures};
ghost use Rattle.buckets.specs.inner.Pass.{InLimits};

use model::{Head, RowFigures, Sheet};

// The figures of every row of a sheet with this head and these entries, one per step; zeros beyond the rows.
pub fn figures(head: Head, refs: &[u16]) -> [RowFigures; Sheet::MAX_ROWS]
    requires { InLimits head refs.now }
    ensures { result ≡ run_figures (head_value_of head).rows (head_run (head_value_of head) refs.now) }
{
    let sizes = &head.sizes[..head.segs];
    let warm = &head.holds[..head.warm];
    let tally = buckets::pass::tally(head.kind, head.a, head.prices, head.rows, sizes, warm, refs);
    rows::all_rows(
        head.kind,
        head.a,
        head.prices,
        head.rows,
        sizes,
        warm,
        refs,
        &tally,
    )
}
