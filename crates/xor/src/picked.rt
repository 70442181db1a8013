// Sums of stretches that stand at the numbers that a list gives: number k of them begins at first + list[k] * step.
ghost use Rattle.std.specs.Prelude.{◌≡◌, ◌+◌, ◌≤◌, length};
ghost use Rattle.xor.specs.Picked.{Chosen, Beside, picked_filled, picked_cancelled};

use crate::cancel::all_cancel;
use crate::fill::fill_from;
use crate::stretches::Picked;

// The sum of `len` bytes of each of the first `count` of them is zero at each place.
pub fn cancels(a: &[u8], first: usize, step: usize, list: &[u16], count: usize, len: usize) -> bool
    requires chosen { Chosen a.now first step list.now count len }
    requires len_in_bounds { first + len ≤ length a.now }
    ensures { result ≡ picked_cancelled len a.now first step list.now count }
{
    let list = &list[..count];
    all_cancel(a, Picked { step, list }, first, len)
}

// The `len` bytes at the number `target` become the sum of those at the first `count` numbers of the list.
pub fn fill(
    a: &mut [u8],
    first: usize,
    step: usize,
    list: &[u16],
    count: usize,
    target: usize,
    len: usize,
)
    requires { Beside a.old first step list.now count target len }
    ensures { a.new ≡ picked_filled len a.old first step list.now count target }
{
    let list = &list[..count];
    fill_from(a, Picked { step, list }, first, target * step, len);
}
