// Printing what a call answers, each number after a blank.
use model::{Price, Refusal, RowFigures};
use std::io::{self, Print, Stdout};

// A blank and a number.
pub fn value(out: &Stdout, n: u64) -> io::Result<()> {
    print!(out; " {n}")
}

// The number of the refusal, 0 where a call was carried out.
pub fn refusal<T>(out: &Stdout, answer: &Result<T, Refusal>) -> io::Result<()> {
    match answer {
        Ok(_) => value(out, 0),
        Err(why) => value(out, why.number()),
    }
}

// What reading a sheet answers: the number of the refusal, 0 where it is accepted.
pub fn read(out: &Stdout, sheet: &[u8]) -> io::Result<()> {
    refusal(out, &analyser::sheets::read(sheet))
}

// Misses and volume of a row, then optocc and wsocc, the columns of Table II, or optmem and wsmem, those of Table III.
pub fn figures(out: &Stdout, sheet: &[u8], row: usize, time: bool) -> io::Result<()> {
    let f = RowFigures::given(analyser::figuring::figures(sheet, row));
    value(out, f.misses)?;
    value(out, f.volume)?;
    if time {
        value(out, f.optocc)?;
        value(out, f.wsocc)?;
    } else {
        value(out, f.optmem.0)?;
        value(out, f.wsmem)?;
    }
    Ok(())
}

// What pricing a schedule at a row answers: the refusal, memory, load and total.
pub fn cost(out: &Stdout, sheet: &[u8], row: usize, schedule: &[u8]) -> io::Result<()> {
    let answer = analyser::schedules::price(sheet, row, schedule);
    refusal(out, &answer)?;
    let price = Price::given(answer);
    value(out, price.memory.0)?;
    value(out, price.load.0)?;
    value(out, price.total)
}

// What writing the optimal schedule of a row answers.
pub fn optimal(out: &Stdout, sheet: &[u8], row: usize, place: &mut [u8]) -> io::Result<()> {
    let answer = analyser::schedules::optimal_schedule(sheet, row, place);
    written(out, answer, place)
}

// What writing the schedule of the least total with stores counted answers.
pub fn best(out: &Stdout, sheet: &[u8], row: usize, place: &mut [u8]) -> io::Result<()> {
    let answer = analyser::schedules::modified_schedule(sheet, row, place);
    written(out, answer, place)
}

// The refusal and the length of a schedule that was written into a place; then how many bytes of the place are still 170.
fn written(out: &Stdout, answer: Result<usize, Refusal>, place: &[u8]) -> io::Result<()> {
    placed(out, answer)?;
    value(out, unchanged(place))
}

// The refusal and the length of what was written into a place.
pub fn placed(out: &Stdout, answer: Result<usize, Refusal>) -> io::Result<()> {
    refusal(out, &answer)?;
    value(out, answer.unwrap_or(0) as u64)
}

// How many bytes of a place are 170.
fn unchanged(place: &[u8]) -> u64 {
    let mut n: u64 = 0;
    for b in place {
        if *b == 170 {
            n += 1;
        }
    }
    n
}

// A line of the page that is written, counted from 0; then what writing it answers: the refusal and the length.
pub fn page(out: &Stdout, sheet: &[u8], k: usize, place: &mut [u8]) -> io::Result<()> {
    let answer = analyser::texts::page(sheet, place);
    let start = k % 120 * 73;
    let after = start + 73;
    if after <= place.len() {
        out.write_all(&place[start..after])?;
    }
    placed(out, answer)
}

// The digits that the number writer writes.
pub fn digits(out: &Stdout, n: u64) -> io::Result<()> {
    let mut place = [0u8; 20];
    let after = decimal::write(n, &mut place, 0);
    out.write_all(&place[..after])
}
