// Eight bytes as one number of 64 bits, so that the bits of many segments are compared at once.
ghost use Rattle.std.specs.Prelude.{◌≡◌, ℕ, ◌+◌, ◌/◌, ◌%◌, ◌≤◌, ◌<◌, length, get_or};
ghost use Rattle.model.specs.Schedules.{bit};

// Eight bytes from the place at on as one number, the first the lowest.
pub fn joined(s: &[u8], at: usize) -> u64
    requires { at + 8 ≤ length s.now }
    ensures { (k : ℕ) → k < 64 → bit result k ≡ bit (get_or s.now (at + k / 8) 0) (k % 8) }
{
    u64::from_le_bytes([
        s[at],
        s[at + 1],
        s[at + 2],
        s[at + 3],
        s[at + 4],
        s[at + 5],
        s[at + 6],
        s[at + 7],
    ])
}
