// Sums of stretches, kept in an array that the caller lends: passed by value, one of eight bytes would go as a number, and the compiler
// would sum it byte by byte.
ghost use Rattle.std.specs.Prelude.{◌≡◌, ℕ, ◌+◌, ◌≤◌, ◌<◌, length, get_or};
ghost use Rattle.stripes.specs.Fold.{◌⊕◌};
ghost use Rattle.xor.specs.Strided.{added};
ghost use Rattle.xor.specs.Spots.{Inside, total_at};

use crate::stretches::Stretches;

// The bytes from `at` on added to v.
#[inline(always)]
fn mix<const W: usize>(v: &mut [u8; W], a: &[u8], at: usize)
    requires { at + W ≤ length a.now }
    ensures { v.new ≡ added v.old 0 W (λ i. get_or a.now (at + i) 0) }
{
    for i in 0..W {
        v[i] ^= a[at + i];
    }
}

// v becomes the sum of W bytes of each stretch that is taken.
#[inline(always)]
pub(crate) fn sum<S: Stretches, const W: usize>(
    v: &mut [u8; W],
    a: &[u8],
    stretches: S,
    first: usize,
)
    requires { Inside (S.spots stretches) a.now first W }
    ensures len { length v.new ≡ W }
    ensures sums { (i : ℕ) → i < W → get_or v.new i 0 ≡ total_at (S.spots stretches) a.now (first + i) }
{
    v.fill(0);
    for k in 0..stretches.count() {
        if stretches.takes(k) {
            mix(v, a, stretches.start(first, k));
        }
    }
}
