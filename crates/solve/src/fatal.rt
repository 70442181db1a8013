// A fatal loss: the cycle that shows it.
ghost use Rattle.std.specs.Prelude.{◌≡◌, true, ◌≤◌, length};
ghost use Rattle.stripes.specs.Erased.{erasures};
ghost use Rattle.stripes.specs.Repair.{fatal};
ghost use Rattle.stripes.specs.Smallest.{shown_cycle};
ghost use Rattle.model.specs.Grid.{layout_of};
ghost use Rattle.entries.specs.Listed.{capacity, listed};
ghost use Rattle.tally.specs.Tally.{Table};

use layout::stripe::Grid;

// `show` in memory that is lent. What it held does not matter.
fn show_in(grid: Grid, work: &mut [u8], stripes: &[u8], set: &mut [u8], list: &mut [u32]) -> usize
    requires table { Table (layout_of grid.size grid.base) work.old stripes.now }
    requires work_value { fatal (layout_of grid.size grid.base) (erasures work.old) ≡ true }
    requires set_len { length set.old ≡ length work.old }
    requires capacity_in_bounds { capacity ≤ length list.old }
    ensures number { result ≡ length (shown_cycle (layout_of grid.size grid.base) (erasures work.old)) }
    ensures list { listed list.new result ≡ shown_cycle (layout_of grid.size grid.base) (erasures work.old) }
{
    smallest::find(grid, work, stripes, set);
    cycle::trace(grid, set, stripes, list)
}

// Lists the smallest cycle of the erased disks of a working map, which is used up, and says how many disks it has.
pub fn show(grid: Grid, work: &mut [u8], stripes: &[u8], list: &mut [u32]) -> usize
    requires table { Table (layout_of grid.size grid.base) work.old stripes.now }
    requires work_value { fatal (layout_of grid.size grid.base) (erasures work.old) ≡ true }
    requires work_len_bound { length work.old ≤ 256 }
    requires capacity_in_bounds { capacity ≤ length list.old }
    ensures number { result ≡ length (shown_cycle (layout_of grid.size grid.base) (erasures work.old)) }
    ensures list { listed list.new result ≡ shown_cycle (layout_of grid.size grid.base) (erasures work.old) }
{
    let mut set = [0u8; tally::DISKS];
    let disks = work.len();
    show_in(grid, work, stripes, &mut set[..disks], list)
}
