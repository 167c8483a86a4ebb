// Parts of a sheet, shown by a reader, and the row records.
use crate::show::{placed, value};
use model::RowFigures;
use std::io::{self, Print, Stdout};

// The line at a place: its key, "=" and its value; then the place after it, and 1 where nothing is left there.
pub fn part(out: &Stdout, sheet: &[u8], at: usize) -> io::Result<()> {
    out.write_all(reader::key_at(sheet, at))?;
    out.write_all(b"=")?;
    out.write_all(reader::value_at(sheet, at))?;
    let next = reader::place_after(sheet, at);
    value(out, next as u64)?;
    value(out, u64::from(reader::ends_at(sheet, next)))
}

// The value of a line, counted from 0.
pub fn nth(out: &Stdout, sheet: &[u8], n: usize) -> io::Result<()> {
    out.write_all(reader::value_of(sheet, n))
}

// The eleven items of a record.
fn items(out: &Stdout, f: RowFigures) -> io::Result<()> {
    value(out, f.h)?;
    value(out, f.d)?;
    value(out, f.misses)?;
    value(out, f.volume)?;
    value(out, f.load.0)?;
    value(out, f.optmem.0)?;
    value(out, f.opttotal)?;
    value(out, f.optocc)?;
    value(out, f.wsmem)?;
    value(out, f.wsocc)?;
    value(out, f.mean)
}

// The row records in a list of 64: the refusal, how many were written, and the first three of the list.
pub fn records(out: &Stdout, sheet: &[u8]) -> io::Result<()> {
    let all = row_records::filled_list(sheet);
    let list = all.figures;
    placed(out, all.answer)?;
    items(out, list[0])?;
    items(out, list[1])?;
    items(out, list[2])
}
