// Runs of bytes: the place of a byte, and whether two runs are the same.
ghost use Rattle.std.specs.Prelude.{◌≡◌, length, take};
ghost use Rattle.sheet.specs.Lines.{same_bytes};
ghost use Rattle.scan.specs.inner.AtPlace.{FoundAt};

// The place of the first byte `c`, if there is one.
pub fn find(s: &[u8], c: u8) -> Option<usize>
    ensures { FoundAt c s.now result }
{
    s.iter().position(|b| *b == c)
}

// Whether the two are the same bytes.
pub fn same(s: &[u8], t: &[u8]) -> bool
    ensures { result ≡ same_bytes s.now t.now }
{
    s == t
}

// Whether `s` starts with `key`.
pub fn has_key(s: &[u8], key: &[u8]) -> bool
    ensures { result ≡ same_bytes (take (length key.now) s.now) key.now }
{
    s.starts_with(key)
}
