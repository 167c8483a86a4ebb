// Figures, rows of prices and buckets as lists of numbers, as programs in C and other languages hold them.
// What the numbers are is written in specs/; nothing is assumed.
#![tactic(auto)]

pub mod record_numbers;
pub mod recorder_list;
pub mod tables;

ghost use Rattle.std.specs.Prelude.{◌≡◌, ◌*◌, ◌+◌, ◌≤◌, length, take};
ghost use Rattle.model.specs.Sheets.{most_rows};
ghost use Rattle.text.specs.inner.Puts.{Put};
ghost use Rattle.c_lists.specs.Figures.{figure_list, figure_lists};

use model::{RowFigures, Sheet};

// The figures of a row as numbers.
pub fn of_row(f: RowFigures) -> [u64; RowFigures::ITEMS]
    ensures { result ≡ figure_list f }
{
    [
        f.h, f.d, f.misses, f.volume, f.load.0, f.optmem.0, f.opttotal, f.optocc, f.wsmem, f.wsocc,
        f.mean,
    ]
}

// Puts the numbers of a row from `at` on, and gives the index after them.
fn put_row(f: RowFigures, out: &mut [u64], at: usize) -> usize
    requires { at + 11 ≤ length out.old }
    ensures { Put (figure_list f) at out.old result out.new }
{
    let end = at + RowFigures::ITEMS;
    out[at..end].copy_from_slice(&of_row(f));
    end
}

// Puts the numbers of the first `n` rows at the front, and gives how many they are.
pub fn put_rows(figures: [RowFigures; Sheet::MAX_ROWS], n: usize, out: &mut [u64]) -> usize
    requires { (n ≤ most_rows) × (11 * n ≤ length out.old) }
    ensures { Put (figure_lists (take n figures)) 0 out.old result out.new }
{
    let mut next = 0;
    for f in &figures[..n] {
        next = put_row(*f, out, next);
    }
    next
}
