// A program's input: bytes of a stream into a buffer, until it is full or the stream ends. No contract says what a stream gives.
#![tactic(auto)]

ghost use Rattle.std.specs.Prelude.{◌+◌, ◌≤◌, length, IfOk};

use std::io::{self, Read};

// One read into a buffer from `at` on: how many bytes.
fn read_some<R: Read>(input: &mut R, buf: &mut [u8], at: usize) -> io::Result<usize>
    requires { at ≤ length buf.old }
    ensures { IfOk result (λ n. at + n ≤ length buf.new) }
{
    input.read(&mut buf[at..])
}

// Reads until the buffer is full, the input ends or a read fails: how many bytes, which stand at the front of the buffer.
pub fn read_input<R: Read>(input: &mut R, buf: &mut [u8]) -> io::Result<usize>
    ensures { IfOk result (λ n. n ≤ length buf.new) }
{
    let mut done = 0;
    // A read gives as many bytes as it will: no count over a range.
    while done < buf.len() {
        let more = read_some(input, buf, done)?;
        if more == 0 {
            return Ok(done);
        }
        done += more;
    }
    Ok(done)
}
