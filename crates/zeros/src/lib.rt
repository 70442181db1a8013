// Zeros: stored, and told from other bytes.
#![tactic(auto)]

ghost use Rattle.std.specs.Prelude.{◌≡◌, ◌+◌, ◌≤◌, eqb, length, get_or};
ghost use Rattle.stripes.specs.Fold.{every};
ghost use Rattle.zeros.specs.Stored.{stored};

// Stores `len` zeros from `at` on.
pub fn wipe(a: &mut [u8], at: usize, len: usize)
    requires { at + len ≤ length a.old }
    ensures { a.new ≡ stored a.old at len (λ i. 0) }
{
    a[at..at + len].fill(0);
}

// Every one of the 16 bytes from `at` on is zero.
pub fn all_zero16(a: &[u8], at: usize) -> bool
    requires { at + 16 ≤ length a.now }
    ensures { result ≡ every 16 (λ i. eqb (get_or a.now (at + i) 0) 0) }
{
    let mut any = 0;
    for b in &a[at..at + 16] {
        any |= *b;
    }
    any == 0
}
