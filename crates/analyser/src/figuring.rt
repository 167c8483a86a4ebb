// The figures of a row, the row for a ceiling, the margin of a reference and the bill of a row.
// What each call answers is written in specs/Figures.antt.
ghost use Rattle.std.specs.Prelude.{◌≡◌};
ghost use Rattle.analyser.specs.Figures.{bill_answer, figures_answer, margin_answer, size_answer};

use crate::sheets;
use model::{Refusal, RowFigures};
use tariff::{Cents, Tariff};

// The figures of a row: refused with the sheet's refusals, 7.
pub fn figures(bytes: &[u8], row: usize) -> Result<RowFigures, Refusal>
    ensures { result ≡ figures_answer bytes.now row }
{
    let sheet = sheets::read(bytes)?;
    rows::sheet_figures(sheet, row)
}

// The lowest row with the least load among the rows with optmem within the ceiling: refused with the sheet's refusals, 12.
pub fn size(bytes: &[u8], ceiling: u64) -> Result<usize, Refusal>
    ensures { result ≡ size_answer bytes.now ceiling }
{
    let sheet = sheets::read(bytes)?;
    rows::sizing::sheet_size(sheet, ceiling)
}

// The margin h*w - d*R of the n-th reference, counted from 1, at a row: refused with the sheet's refusals, 7, 14, 15.
pub fn margin(bytes: &[u8], row: usize, reference: usize) -> Result<i64, Refusal>
    ensures { result ≡ margin_answer bytes.now row reference }
{
    let sheet = sheets::read(bytes)?;
    margin::sheet_margin(sheet, row, reference)
}

// The bill of a row, at two rates and a minimum in cents: refused with the sheet's refusals, 7, 18.
pub fn bill(
    bytes: &[u8],
    row: usize,
    memory_rate: u64,
    load_rate: u64,
    minimum: u64,
) -> Result<Cents, Refusal>
    ensures { result ≡ bill_answer bytes.now row memory_rate load_rate minimum }
{
    let sheet = sheets::read(bytes)?;
    let tariff = Tariff {
        memory_rate,
        load_rate,
        minimum,
    };
    rows::billing::sheet_bill(sheet, row, tariff)
}
