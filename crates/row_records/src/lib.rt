// The row figures in a lent list of row records, one for each row, with the eleven items that the listing prints.
// What the call answers and leaves in the list is written in specs/; nothing is assumed.
#![tactic(auto)]

ghost use Rattle.std.specs.Prelude.{◌≡◌};
ghost use Rattle.row_records.specs.Listed.{list_answer, list_after};
ghost use Rattle.row_records.specs.Held.{zero_list, records_found};

use model::{Refusal, RowFigures, Sheet};

// The records to be written: how many they are, and the figures of every row, zeros where there is none. The count stands beside an array,
// as no memory is allocated.
#[derive(Clone, Copy)]
pub struct Records {
    pub count: usize,
    pub figures: [RowFigures; Sheet::MAX_ROWS],
}

// The records of the sheet that a run of bytes stands for, for a list of so many: refused with the sheet's refusals, then 11 where the
// list is shorter than the rows.
pub fn all_records(bytes: &[u8], room: usize) -> Result<Records, Refusal>
    ensures { result ≡ records_found bytes.now room }
{
    let s = read_sheet::read_forms(bytes, 1, Sheet::NEWEST_FORM)?;
    let count = s.head.rows;
    if room < count {
        return Err(Refusal::PlaceTooShort);
    }
    let figures = rows::all_figures(s);
    Ok(Records { count, figures })
}

// The figures of every row into a lent list of row records, one for each row: refused with the sheet's refusals, then 11 where the list is
// shorter than the rows. Records beyond the rows stay; refused, no record changes.
pub fn row_records(bytes: &[u8], out: &mut [RowFigures]) -> Result<usize, Refusal>
    ensures { (result ≡ list_answer bytes.now out.old)
        × (out.new ≡ list_after bytes.now out.old) }
{
    let Records { count, figures } = all_records(bytes, out.len())?;
    out[..count].copy_from_slice(&figures[..count]);
    Ok(count)
}

// What a call answers on a list of as many records as a sheet can have rows, and the list after it, which there is where it refuses too.
#[derive(Clone, Copy)]
pub struct FilledList {
    pub answer: Result<usize, Refusal>,
    pub figures: [RowFigures; Sheet::MAX_ROWS],
}

// A list of as many records as a sheet can have rows, all zero.
fn zero_list() -> [RowFigures; Sheet::MAX_ROWS]
    ensures { result ≡ zero_list }
{
    [RowFigures::zero(); Sheet::MAX_ROWS]
}

// The records of a sheet in a list of as many as a sheet can have rows, zero before the call: what `row_records` answers, and the list
// after it.
pub fn filled_list(bytes: &[u8]) -> FilledList
    ensures { result ≡ record {
      answer = list_answer bytes.now zero_list;
      figures = list_after bytes.now zero_list;
    } }
{
    let mut figures = zero_list();
    let answer = row_records(bytes, &mut figures);
    FilledList { answer, figures }
}
