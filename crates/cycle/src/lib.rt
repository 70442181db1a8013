// The cycle that a set of disks forms, where each stripe touched holds two of them. A disk is known here by its two stripes
// alone, which are read from the table.
#![tactic(auto)]

ghost use Rattle.std.specs.Prelude.{◌≡◌, [], ◌∷◌, ◌≤◌, ◌<◌, length};
ghost use Rattle.stripes.specs.System.{among, other_than};
ghost use Rattle.stripes.specs.Erased.{erasures};
ghost use Rattle.stripes.specs.Cycle.{partner as Cycle·partner, lowest_of, cycle_of, Paired};
ghost use Rattle.model.specs.Grid.{layout_of, disks};
ghost use Rattle.entries.specs.Listed.{capacity, listed};
ghost use Rattle.tally.specs.Tally.{Table};

use layout::stripe::{Grid, Pair};

// One of two stripes is the given one.
fn either_is(pair: Pair, stripe: usize) -> bool
    ensures { result ≡ among stripe (pair.low ∷ pair.high ∷ []) }
{
    stripe == pair.low || stripe == pair.high
}

// The one of two stripes that is not the given one.
fn other_of(pair: Pair, stripe: usize) -> usize
    requires { pair.low < pair.high }
    ensures { result ≡ other_than stripe (pair.low ∷ pair.high ∷ []) }
{
    if pair.low == stripe {
        return pair.high;
    }
    pair.low
}

// The lowest disk of a set besides `disk` that lies on the stripe. There is one.
fn partner(grid: Grid, set: &[u8], stripes: &[u8], disk: usize, stripe: usize) -> usize
    requires table { Table (layout_of grid.size grid.base) set.now stripes.now }
    requires stripe_bound { Cycle·partner (layout_of grid.size grid.base) (erasures set.now) (record { disk = disk; stripe = stripe }) < (layout_of grid.size grid.base).disks }
    ensures { result ≡ Cycle·partner (layout_of grid.size grid.base) (erasures set.now) (record { disk = disk; stripe = stripe }) }
{
    for d in tally::scan::erased(set) {
        if d != disk {
            if either_is(tally::table::stripes_of(grid, set, stripes, d), stripe) {
                return d;
            }
        }
    }
    set.len()
}

// Lists the cycle that the disks of a set form, and says how many they are. A list of entries::CAPACITY words has room for
// every cycle.
pub fn trace(grid: Grid, set: &[u8], stripes: &[u8], list: &mut [u32]) -> usize
    requires table { Table (layout_of grid.size grid.base) set.now stripes.now }
    requires paired { Paired (layout_of grid.size grid.base) (erasures set.now) }
    requires set_bound { lowest_of (layout_of grid.size grid.base) (erasures set.now) < disks grid.size }
    requires capacity_in_bounds { capacity ≤ length list.old }
    ensures number { result ≡ length (cycle_of (layout_of grid.size grid.base) (erasures set.now)) }
    ensures list { listed list.new result ≡ cycle_of (layout_of grid.size grid.base) (erasures set.now) }
{
    let start = tally::scan::next_erased(set, 0);
    let mut disk = start;
    let mut stripe = tally::table::stripes_of(grid, set, stripes, start).low;
    let bound = grid.bound();
    for k in 0..bound {
        entries::put(list, k, disk, stripe);
        disk = partner(grid, set, stripes, disk, stripe);
        if disk == start {
            return k + 1;
        }
        stripe = other_of(tally::table::stripes_of(grid, set, stripes, disk), stripe);
    }
    bound
}
