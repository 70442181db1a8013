// Repairs made on the array.
ghost use Rattle.std.specs.Prelude.{◌≡◌, true, ℕ, ◌≤◌, ◌<◌, length};
ghost use Rattle.stripes.specs.System.{on};
ghost use Rattle.stripes.specs.Repair.{rebuilt};
ghost use Rattle.model.specs.Grid.{layout_of, disks};
ghost use Rattle.entries.specs.Listed.{entry_disk, entry_stripe, listed};
ghost use Rattle.sums.specs.Held.{Held};

use layout::stripe::Grid;
use stripes::Stretch;

// The first `count` repairs of a list, one after another.
pub fn repair_all(grid: Grid, stretch: Stretch, array: &mut [u8], list: &[u32], count: usize)
    requires held { Held grid.size stretch array.old }
    requires count_in_bounds { count ≤ length list.now }
    requires by_index { (k : ℕ) → k < count → entry_disk list.now k < disks grid.size }
    requires by_index_2 { (k : ℕ) → k < count → on (layout_of grid.size grid.base) (entry_disk list.now k) (entry_stripe list.now k) ≡ true }
    ensures { array.new ≡ rebuilt (layout_of grid.size grid.base) stretch array.old (listed list.now count) }
{
    for k in 0..count {
        let disk = entries::disk_of(list, k);
        let stripe = entries::stripe_of(list, k);
        sums::repair::repair(grid, stretch, array, disk, stripe);
    }
}
