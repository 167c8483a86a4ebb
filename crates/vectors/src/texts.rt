// Texts that a call writes, printed whole before the refusal and the length.
use crate::show::placed;
use model::Refusal;
use std::io::{self, Print, Stdout};

// The front of a place, as long as an answer says, and the answer.
fn text(out: &Stdout, answer: Result<usize, Refusal>, place: &[u8]) -> io::Result<()> {
    let n = answer.unwrap_or(0);
    if n <= place.len() {
        out.write_all(&place[..n])?;
    }
    placed(out, answer)
}

// The listing of a sheet.
pub fn listing(out: &Stdout, sheet: &[u8]) -> io::Result<()> {
    let mut place = [0u8; 65536];
    let answer = analyser::texts::listing(sheet, &mut place);
    text(out, answer, &place)
}

// Two sheets as one.
pub fn join(out: &Stdout, first: &[u8], second: &[u8]) -> io::Result<()> {
    let mut place = [0u8; 65536];
    let answer = analyser::sheets::join(first, second, &mut place);
    text(out, answer, &place)
}

// A din trace as a sheet with the rows of another.
pub fn import(out: &Stdout, trace: &[u8], k: u64, sheet: &[u8]) -> io::Result<()> {
    let mut place = [0u8; 65536];
    let answer = analyser::sheets::import_din(trace, k, sheet, &mut place);
    text(out, answer, &place)
}
