// The table of stripes: those of disk d stand at 2 * d, a byte each.
ghost use Rattle.std.specs.Prelude.{◌≡◌, true, [], ◌∷◌, ◌+◌, ◌*◌, ◌<◌, length, get_or, set};
ghost use Rattle.stripes.specs.Erased.{erasures};
ghost use Rattle.model.specs.Grid.{layout_of};
ghost use Rattle.tally.specs.Tally.{Table};

use layout::stripe::{Grid, Pair};

// Writes the stripes of a disk.
pub fn enter(stripes: &mut [u8], disk: usize, pair: Pair)
    requires disk_in_bounds { 2 * disk + 1 < length stripes.old }
    requires low_bound { pair.low < 256 }
    requires high_bound { pair.high < 256 }
    ensures { stripes.new ≡ set (set stripes.old (2 * disk) pair.low) (2 * disk + 1) pair.high }
{
    let at = 2 * disk;
    stripes[at] = pair.low as u8;
    stripes[at + 1] = pair.high as u8;
}

// What stands in the table for a disk.
fn read(stripes: &[u8], disk: usize) -> Pair
    requires { 2 * disk + 1 < length stripes.now }
    ensures low { result.low ≡ get_or stripes.now (2 * disk) 0 }
    ensures high { result.high ≡ get_or stripes.now (2 * disk + 1) 0 }
{
    let at = 2 * disk;
    Pair {
        low: usize::from(stripes[at]),
        high: usize::from(stripes[at + 1]),
    }
}

// The stripes of an erased disk. The grid and the map say only of what the contract speaks. Map and table stay parameters of their own: a
// struct of both would hold loans, which an `ensures` sees at two moments, and would make each contract longer.
pub fn stripes_of(grid: Grid, work: &[u8], stripes: &[u8], disk: usize) -> Pair
    requires table { Table (layout_of grid.size grid.base) work.now stripes.now }
    requires disk_value { erasures work.now disk ≡ true }
    ensures { (layout_of grid.size grid.base).through disk ≡ result.low ∷ result.high ∷ [] }
{
    read(stripes, disk)
}
