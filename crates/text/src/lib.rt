// Writing lines: a text, the digits of a number, and the line of a number, each from an index of the lent place on.
// What a place becomes is written in specs/; nothing is assumed. The place and the index are two parameters: a struct of both would hold
// the lent slice, and each function that takes it would have to promise besides that it still holds the same one.
#![tactic(auto)]

ghost use Rattle.std.specs.Prelude.{[], ◌∷◌, ◌++◌, ◌+◌, ◌≤◌, length, Ok};
ghost use Rattle.decimal.specs.Decimal.{written};
ghost use Rattle.model.specs.Places.{PlaceLeft};
ghost use Rattle.text.specs.inner.Puts.{Put, LengthOf};
ghost use Rattle.text.specs.Texts.{number_text};

use model::Refusal;

// The length of the line of a number.
pub fn number_length(key: &[u8], n: u64) -> usize
    requires { length key.now ≤ 9 }
    ensures { LengthOf (number_text key.now n) (length key.now + 21) result }
{
    key.len() + decimal::width(n) + 1
}

// Copies `text` into `out` from the index `at` on, and gives the index after it.
pub fn put(text: &[u8], out: &mut [u8], at: usize) -> usize
    requires { at + length text.now ≤ length out.old }
    ensures { Put text.now at out.old result out.new }
{
    let end = at + text.len();
    out[at..end].copy_from_slice(text);
    end
}

// Copies `text` to the front of a lent place; refusal 11 and no change where the place is shorter.
pub fn place(text: &[u8], out: &mut [u8]) -> Result<usize, Refusal>
    ensures { PlaceLeft (Ok text.now) out.old out.new result }
{
    if out.len() < text.len() {
        return Err(Refusal::PlaceTooShort);
    }
    Ok(put(text, out, 0))
}

// Writes the digits of `n` and the byte `end` after them, and gives the index after it.
pub fn put_digits(n: u64, end: u8, out: &mut [u8], at: usize) -> usize
    requires { at + length (written n ++ (end ∷ [])) ≤ length out.old }
    ensures { Put (written n ++ (end ∷ [])) at out.old result out.new }
{
    let last = decimal::write(n, out, at);
    out[last] = end;
    last + 1
}

// Writes the line of a number, and gives the index after it.
pub fn put_number(key: &[u8], n: u64, out: &mut [u8], at: usize) -> usize
    requires { at + length (number_text key.now n) ≤ length out.old }
    ensures { Put (number_text key.now n) at out.old result out.new }
{
    let value = put(key, out, at);
    put_digits(n, b'\n', out, value)
}
