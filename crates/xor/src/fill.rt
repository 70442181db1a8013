// Stores a sum of stretches into one that is none of them.
ghost use Rattle.std.specs.Prelude.{◌≡◌, ◌+◌, ◌*◌};
ghost use Rattle.xor.specs.Parts.{stored_from};
ghost use Rattle.xor.specs.Spots.{Clear, total_at};
ghost use Rattle.xor.specs.Strided.{Spaced, filled};

use crate::put::put;
use crate::stretches::{Stretches, Strided};
use crate::sum::sum;

// `fill_from` for W * parts bytes, W at a time.
#[inline(always)]
fn fill_parts<S: Stretches, const W: usize>(
    a: &mut [u8],
    stretches: S,
    first: usize,
    gap: usize,
    parts: usize,
)
    requires { Clear (S.spots stretches) a.old first gap (W * parts) }
    ensures { a.new ≡ stored_from a.old (first + gap) (total_at (S.spots stretches) a.old) first (W * parts) }
{
    for i in 0..parts {
        let from = first + W * i;
        let mut v = [0u8; W];
        sum(&mut v, a, stretches, from);
        put(a, from + gap, &v);
    }
}

// `fill_from` for few bytes: eight at a time, then one.
fn fill_few<S: Stretches>(a: &mut [u8], stretches: S, first: usize, gap: usize, len: usize)
    requires { Clear (S.spots stretches) a.old first gap len }
    ensures { a.new ≡ stored_from a.old (first + gap) (total_at (S.spots stretches) a.old) first len }
{
    let eights = len / 8;
    fill_parts::<S, 8>(a, stretches, first, gap, eights);
    fill_parts::<S, 1>(a, stretches, first + 8 * eights, gap, len % 8);
}

// The `len` bytes that begin `gap` behind `first` become the sum of the stretches from `first` on.
pub(crate) fn fill_from<S: Stretches>(
    a: &mut [u8],
    stretches: S,
    first: usize,
    gap: usize,
    len: usize,
)
    requires { Clear (S.spots stretches) a.old first gap len }
    ensures { a.new ≡ stored_from a.old (first + gap) (total_at (S.spots stretches) a.old) first len }
{
    if len < 16 {
        fill_few(a, stretches, first, gap, len);
        return;
    }
    let wide = len / 128;
    let middle = len % 128 / 32;
    let narrow = len % 32 / 16;
    fill_parts::<S, 128>(a, stretches, first, gap, wide);
    fill_parts::<S, 32>(a, stretches, first + 128 * wide, gap, middle);
    fill_parts::<S, 16>(a, stretches, first + (len - len % 32), gap, narrow);
    if len % 16 == 0 {
        return;
    }
    fill_parts::<S, 16>(a, stretches, first + (len - 16), gap, 1);
}

// Of `count` stretches of `len` bytes that stand `step` apart from `first` on, number `skip` becomes the sum of the others. As
// it is left out of the sum, bytes that are stored twice get the same value.
pub fn fill(a: &mut [u8], first: usize, step: usize, count: usize, skip: usize, len: usize)
    requires { Spaced a.old first step count skip len }
    ensures { a.new ≡ filled len a.old first step count skip }
{
    fill_from(a, Strided { step, count, skip }, first, skip * step, len);
}
