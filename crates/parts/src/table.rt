// Tables with a place for each stripe, of the names of parts and of ways: making them, uniting two parts, and going on from one.
// Only the places below the bound of the stripes are written: they are gone over again and again.
ghost use Rattle.std.specs.Prelude.{◌≡◌, cond, ◌≤◌, ◌<◌, eqb, length, get_or};
ghost use Rattle.stripes.specs.Fold.{◌⊕◌, gate};
ghost use Rattle.stripes.specs.Joined.{united};
ghost use Rattle.parts.specs.Parted.{Values};

// Every stripe is a part by itself, and names it.
pub fn start(parts: &mut [u8], bound: usize)
    requires bound_in_bounds { bound ≤ length parts.old }
    requires bound_bound { bound ≤ 256 }
    ensures { Values (λ s. s) bound parts.new }
{
    for s in 0..bound {
        parts[s] = s as u8;
    }
}

// Every way is empty.
pub fn clear(ways: &mut [u64], bound: usize)
    requires { bound ≤ length ways.old }
    ensures { Values (λ s. 0) bound ways.new }
{
    ways[..bound].fill(0);
}

// The new name of a part, if it is the one that gets one.
fn renamed(part: u8, old: u8, name: u8) -> u8
    ensures { result ≡ cond (eqb part old) name part }
{
    if part == old {
        return name;
    }
    part
}

// The parts of two stripes become one, which has the name of the first. Every name is written, whether it changes or not, so that the
// loop has no branch.
pub fn unite(parts: &mut [u8], bound: usize, low: usize, high: usize)
    requires bound_in_bounds { bound ≤ length parts.old }
    requires low_lt_bound { low < bound }
    requires high_lt_bound { high < bound }
    ensures { Values (united low high (λ s. get_or parts.old s 0)) bound parts.new }
{
    let name = parts[low];
    let old = parts[high];
    for s in 0..bound {
        parts[s] = renamed(parts[s], old, name);
    }
}

// The links that a stripe's way gets, if its part is the one from which it goes on.
fn added(part: u8, old: u8, links: u64) -> u64
    ensures { result ≡ gate (eqb part old) links }
{
    if part == old {
        return links;
    }
    0
}

// The ways of the stripes in one part change by the same links. Every way is written, as above.
pub fn extend(parts: &[u8], ways: &mut [u64], bound: usize, old: u8, links: u64)
    requires bound_in_bounds { bound ≤ length parts.now }
    requires bound_in_bounds_2 { bound ≤ length ways.old }
    ensures { Values (λ s. get_or ways.old s 0 ⊕ gate (eqb (get_or parts.now s 0) old) links) bound ways.new }
{
    for s in 0..bound {
        ways[s] ^= added(parts[s], old, links);
    }
}
