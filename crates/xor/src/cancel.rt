// Tests whether the sum of stretches is zero. A `skip` of `count` leaves out none of them: it stays a parameter, since the
// compiler makes poor code of the sums where it is a constant.
ghost use Rattle.std.specs.Prelude.{◌≡◌, not, ℕ, ◌+◌, ◌*◌, ◌≤◌, ◌<◌, eqb, length, get_or};
ghost use Rattle.stripes.specs.Fold.{every, lowest};
ghost use Rattle.xor.specs.Parts.{zero_from};
ghost use Rattle.xor.specs.Spots.{Inside, total_at};
ghost use Rattle.xor.specs.Strided.{Within, cancelled};

use crate::stretches::{Stretches, Strided};
use crate::sum::sum;

// The bytes of v are all zero.
#[inline(always)]
fn is_zero<const W: usize>(v: &[u8; W]) -> bool
    ensures { result ≡ every W (λ i. eqb (get_or v.now i 0) 0) }
{
    let mut any = 0u8;
    for b in v {
        any |= *b;
    }
    any == 0
}

// `all_cancel` for W * parts bytes, W at a time.
#[inline(always)]
fn parts_cancel<S: Stretches, const W: usize>(
    a: &[u8],
    stretches: S,
    first: usize,
    parts: usize,
) -> bool
    requires inside { Inside (S.spots stretches) a.now first (W * parts) }
    requires parts_in_bounds { first + W * parts ≤ length a.now }
    ensures { result ≡ zero_from (total_at (S.spots stretches) a.now) first (W * parts) }
{
    for i in 0..parts {
        let mut v = [0u8; W];
        sum(&mut v, a, stretches, first + W * i);
        if !is_zero(&v) {
            return false;
        }
    }
    true
}

// `all_cancel` for few bytes: eight at a time, then one.
fn few_cancel<S: Stretches>(a: &[u8], stretches: S, first: usize, len: usize) -> bool
    requires inside { Inside (S.spots stretches) a.now first len }
    requires len_in_bounds { first + len ≤ length a.now }
    ensures { result ≡ zero_from (total_at (S.spots stretches) a.now) first len }
{
    let eights = len / 8;
    parts_cancel::<S, 8>(a, stretches, first, eights)
        && parts_cancel::<S, 1>(a, stretches, first + 8 * eights, len % 8)
}

// The sum of `len` bytes of each stretch is zero at each place.
pub(crate) fn all_cancel<S: Stretches>(a: &[u8], stretches: S, first: usize, len: usize) -> bool
    requires inside { Inside (S.spots stretches) a.now first len }
    requires len_in_bounds { first + len ≤ length a.now }
    ensures { result ≡ zero_from (total_at (S.spots stretches) a.now) first len }
{
    if len < 16 {
        return few_cancel(a, stretches, first, len);
    }
    let wide = len / 128;
    let middle = len % 128 / 32;
    let narrow = len % 32 / 16;
    parts_cancel::<S, 128>(a, stretches, first, wide)
        && parts_cancel::<S, 32>(a, stretches, first + 128 * wide, middle)
        && parts_cancel::<S, 16>(a, stretches, first + (len - len % 32), narrow)
        && (len % 16 == 0 || parts_cancel::<S, 16>(a, stretches, first + (len - 16), 1))
}

// Of `count` stretches of `len` bytes that stand `step` apart from `first` on, the sum of all but number `skip` is zero at
// each place.
pub fn cancels(a: &[u8], first: usize, step: usize, count: usize, skip: usize, len: usize) -> bool
    requires within { Within a.now first step count len }
    requires len_in_bounds { first + len ≤ length a.now }
    ensures { result ≡ cancelled len a.now first step count skip }
{
    all_cancel(a, Strided { step, count, skip }, first, len)
}

// The lowest of `total` sums that is not zero somewhere, or `total` where there is none, as `lowest` of the definitions has it. The
// stretches of sum number i start at first + i * pitch.
pub fn lowest_nonzero(
    a: &[u8],
    first: usize,
    pitch: usize,
    total: usize,
    step: usize,
    count: usize,
    skip: usize,
    len: usize,
) -> usize
    requires by_index { (i : ℕ) → i < total → Within a.now (first + i * pitch) step count len }
    requires by_index_2 { (i : ℕ) → i < total → first + i * pitch + len ≤ length a.now }
    ensures { result ≡ lowest total (λ i. not (cancelled len a.now (first + i * pitch) step count skip)) }
{
    for i in 0..total {
        if !cancels(a, first + i * pitch, step, count, skip, len) {
            return i;
        }
    }
    total
}
