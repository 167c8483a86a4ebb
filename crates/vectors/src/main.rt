// A test program: answers of the public calls, compared with what the documents say and not proved. The file stdin has the sheets and the
// calls, as its first lines explain; the file stdout has the answers.
#![tactic(auto)]

mod line_text;
mod lists;
mod parts;
mod show;
mod texts;

use line_text::{find, number, put};
use std::io::{self, Print, Stdout};

fn main(rt: HostRuntime) -> io::Result<()> {
    let mut input = [0u8; 65536];
    let n = input::read_input(&mut rt.stdin(), &mut input)?;
    let mut sheet = [0u8; 65536];
    let mut place = [0u8; 65536];
    lines(&rt.stdout(), &input[..n], &mut sheet, &mut place)
}

// Does what each line says. Its number stands before the colon; its text begins with the colon and ends with the line feed. Held are the
// lengths of the sheet and of the place.
fn lines(out: &Stdout, input: &[u8], sheet: &mut [u8], place: &mut [u8]) -> io::Result<()> {
    let mut held = [0usize; 2];
    let mut at: usize = 0;
    // Each line says where the next one begins.
    while at < input.len() {
        let end = find(input, at, input.len() - 1, 10);
        let colon = find(input, at, end, 58);
        let next = end + 1;
        let n = number(&input[at..colon]);
        line(
            out,
            input[at],
            n,
            &input[colon..next],
            sheet,
            place,
            &mut held,
        )?;
        at = next;
    }
    Ok(())
}

// Does what a line says, by its first letter: a sheet, a part of it, a place, nothing, or a call.
fn line(
    out: &Stdout,
    word: u8,
    n: u64,
    text: &[u8],
    sheet: &mut [u8],
    place: &mut [u8],
    held: &mut [usize; 2],
) -> io::Result<()> {
    match word {
        b's' => held[0] = put(sheet, 0, text, 1),
        b'a' => held[0] = put(sheet, held[0], text, n),
        b'f' => held[1] = put(place, 0, text, n),
        b'#' => {}
        b'\n' => {}
        _ => return on_held(out, word, n, text, sheet, held[0], place, held[1]),
    }
    Ok(())
}

// Makes a call on the bytes of the sheet and of the place, and prints the text after its answer.
fn on_held(
    out: &Stdout,
    word: u8,
    n: u64,
    text: &[u8],
    sheet: &[u8],
    s: usize,
    place: &mut [u8],
    m: usize,
) -> io::Result<()> {
    if s <= sheet.len() {
        if m <= place.len() {
            call(out, word, n, &sheet[..s], &mut place[..m])?;
            return out.write_all(text);
        }
    }
    Ok(())
}

// Makes the call that a first letter stands for, if there is one.
fn call(out: &Stdout, word: u8, n: u64, sheet: &[u8], place: &mut [u8]) -> io::Result<()> {
    let row = n as usize;
    match word {
        b'r' => show::read(out, sheet),
        b't' => show::figures(out, sheet, row, true),
        b'm' => show::figures(out, sheet, row, false),
        b'c' => show::cost(out, sheet, row, place),
        b'o' => show::optimal(out, sheet, row, place),
        b'b' => show::best(out, sheet, row, place),
        b'p' => show::page(out, sheet, row, place),
        b'd' => show::digits(out, n),
        b'l' => texts::listing(out, sheet),
        b'j' => texts::join(out, sheet, place),
        b'i' => texts::import(out, sheet, n, place),
        b'u' => lists::used(out, sheet),
        b'w' => lists::windows(out, sheet),
        b'e' => lists::every(out, sheet),
        b'v' => parts::nth(out, sheet, row),
        b'k' => parts::part(out, sheet, row),
        b'n' => parts::records(out, sheet),
        _ => Ok(()),
    }
}
