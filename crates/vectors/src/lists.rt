// Lists of numbers that a call writes, each number printed after a blank.
use crate::show::{refusal, value};
use model::{Refusal, Sheet};
use replacement::Curve;
use std::io::{self, Print, Stdout};

// The refusal of a call, and the numbers that it wrote into a list.
fn numbers(out: &Stdout, answer: Result<usize, Refusal>, list: &[u64]) -> io::Result<()> {
    refusal(out, &answer)?;
    for n in list.iter().take(answer.unwrap_or(0)) {
        value(out, *n)?;
    }
    Ok(())
}

// The misses of least-recently-used replacement with 1, 2, .. frames by stack distances, and the entries looked at; then by simulation.
pub fn used(out: &Stdout, sheet: &[u8]) -> io::Result<()> {
    let mut list = [0u64; Sheet::MAX_SEGS];
    let answer = analyser::curves::lru(sheet, &mut list);
    numbers(out, answer.map(|curve| curve.length), &list)?;
    value(out, Curve::given(answer).looked)?;
    let mut plain = [0u64; Sheet::MAX_SEGS];
    let other = analyser::curves::lru_plain(sheet, &mut plain);
    numbers(out, other, &plain)
}

// wsocc for every window.
pub fn windows(out: &Stdout, sheet: &[u8]) -> io::Result<()> {
    let mut list = [0u64; Sheet::MAX_STEPS];
    let answer = analyser::curves::windows(sheet, &mut list);
    numbers(out, answer, &list)
}

// R, w, optmem and load of every operating point.
pub fn every(out: &Stdout, sheet: &[u8]) -> io::Result<()> {
    let mut list = [0u64; 8192];
    let answer = analyser::curves::points(sheet, &mut list);
    numbers(out, answer, &list)
}
