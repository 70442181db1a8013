// Stores bytes, adds them, and takes the difference of two stretches.
ghost use Rattle.std.specs.Prelude.{◌≡◌, ℕ, ◌+◌, ◌≤◌, ◌<◌, length, get_or};
ghost use Rattle.stripes.specs.Fold.{◌⊕◌};
ghost use Rattle.zeros.specs.Stored.{stored};
ghost use Rattle.xor.specs.Strided.{added};

// The bytes of v stored from `at` on. A loop, as with `copy_from_slice` v goes through memory, and a seal takes a tenth longer.
pub fn put<const W: usize>(a: &mut [u8], at: usize, v: &[u8; W])
    requires { at + W ≤ length a.old }
    ensures { a.new ≡ stored a.old at W (λ i. get_or v.now i 0) }
{
    for i in 0..W {
        a[at + i] = v[i];
    }
}

// The bytes of v added to those from `at` on.
pub fn add<const W: usize>(a: &mut [u8], at: usize, v: &[u8; W])
    requires { at + W ≤ length a.old }
    ensures { a.new ≡ added a.old at W (λ i. get_or v.now i 0) }
{
    for i in 0..W {
        a[at + i] ^= v[i];
    }
}

// The difference between the W bytes of a from `at` on and those of b from `from` on.
pub fn difference<const W: usize>(a: &[u8], at: usize, b: &[u8], from: usize) -> [u8; W]
    requires at_in_bounds { at + W ≤ length a.now }
    requires from_in_bounds { from + W ≤ length b.now }
    ensures { (i : ℕ) → i < W → get_or result i 0 ≡ get_or a.now (at + i) 0 ⊕ get_or b.now (from + i) 0 }
{
    let mut r = [0u8; W];
    for i in 0..W {
        r[i] = a[at + i] ^ b[from + i];
    }
    r
}
