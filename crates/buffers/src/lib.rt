//! Filling a lent buffer: with the first bytes of another, with the sizes at hand, or with zeros.
//!
//! Each function promises what every byte or word of the buffer is afterwards, those that it does not touch among them.

#![tactic(auto)]

ghost use Rattle.std.specs.Prelude.{◌≡◌, ℕ, ◌<◌, ◌≤◌, length, get_or, replicate};
ghost use Rattle.std.proofs.Math.Seq.{paste};

/// Copies the first `count` bytes of `bytes` to the start of `to`.
pub fn copy(to: &mut [u8], bytes: &[u8], count: usize)
    requires count_in_bounds { count ≤ length bytes.now }
    requires count_in_bounds_2 { count ≤ length to.old }
    ensures { to.new ≡ paste to.old 0 bytes.now count }
{
    to[..count].copy_from_slice(&bytes[..count]);
}

/// Fills `sizes` with the sizes at hand, and with 0 past the last of them.
pub fn copy_sizes(sizes: &mut [u64], few: &[u64])
    ensures { (j : ℕ) → j < length sizes.old → get_or sizes.new j 0 ≡ get_or few.now j 0 }
{
    let n = sizes.len().min(few.len());
    sizes[..n].copy_from_slice(&few[..n]);
    sizes[n..].fill(0);
}

/// Fills `sizes` with 0.
pub fn clear(sizes: &mut [u64])
    ensures { sizes.new ≡ replicate (length sizes.old) 0 }
{
    sizes.fill(0);
}
