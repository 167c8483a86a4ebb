// The program: a sheet on standard input, its listing on standard output, or `refused=` and the number of the refusal. It only reads and
// writes; what it prints is that of `analyser::texts::printed`. Where the input cannot be read or the output not written it says so on
// standard error, and prints nothing where the input cannot be read. No contract says what a stream gives or takes.
#![tactic(auto)]

use model::Sheet;
use std::io::{self, Print, Stdout};

// Prints what is due for the bytes, where `out` has room for it.
fn print(output: &Stdout, bytes: &[u8], out: &mut [u8]) -> io::Result<()> {
    match analyser::texts::printed(bytes, out) {
        Ok(length) => output.write_all(&out[..length]),
        Err(_) => Ok(()),
    }
}

// One byte more than the largest sheet is read, so that a longer input is refused.
fn main(rt: HostRuntime) -> io::Result<()> {
    let mut input = [0u8; Sheet::MAX_BYTES_4 + 1];
    let n = match input::read_input(&mut rt.stdin(), &mut input) {
        Ok(n) => n,
        Err(error) => return eprintln!(rt; "segtrace: standard input: {error}"),
    };
    let mut buffer = [0u8; 65536];
    match print(&rt.stdout(), &input[..n], &mut buffer) {
        Ok(()) => Ok(()),
        Err(error) => eprintln!(rt; "segtrace: standard output: {error}"),
    }
}
