// Whether a sheet has misses with 1, 2, .., segs frames: every size is 1, and no segment is warm; and whether a place takes them. What the
// engines that count them leave is written in specs/.
ghost use Rattle.std.specs.Prelude.{◌≡◌, length};
ghost use Rattle.replacement.specs.Answers.{all_ones, ones_verdict};
ghost use Rattle.lru_curve.specs.inner.Left.{curve_verdict};

use model::Refusal;

// Whether every size is 1.
pub fn all_ones(sizes: &[u16]) -> bool
    ensures { result ≡ all_ones sizes.now }
{
    sizes.iter().all(|size| *size == 1)
}

// Whether every size is 1 and none of the segments is warm: 26, then 27.
pub fn ones_verdict(sizes: &[u16], warm: usize) -> Result<(), Refusal>
    ensures { result ≡ ones_verdict sizes.now warm }
{
    let ones = all_ones(sizes);
    let cold = warm == 0;
    if !ones {
        return Err(Refusal::SizeNotOne);
    }
    if !cold {
        return Err(Refusal::WarmSegment);
    }
    Ok(())
}

// Whether a place of so many numbers takes the misses with 1, 2, .., segs frames: 26, 27, then 11.
pub fn curve_verdict(sizes: &[u16], warm: usize, room: usize) -> Result<(), Refusal>
    ensures { result ≡ curve_verdict sizes.now warm room }
{
    ones_verdict(sizes, warm)?;
    if room < sizes.len() {
        return Err(Refusal::PlaceTooShort);
    }
    Ok(())
}
