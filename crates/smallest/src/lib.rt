// The smallest cycle of erased disks: the shortest, and of equal ones that whose disk numbers in ascending order come first. It is met at its
// lowest disk: first that disk is searched for, then the others are chosen in rising order.
#![tactic(auto)]

ghost use Rattle.std.specs.Prelude.{◌≡◌, true, length};
ghost use Rattle.stripes.specs.Erased.{erasures};
ghost use Rattle.stripes.specs.Repair.{fatal};
ghost use Rattle.stripes.specs.Smallest.{on_smallest};
ghost use Rattle.model.specs.Grid.{layout_of};
ghost use Rattle.tally.specs.Tally.{Table};

mod choose;
mod near;
mod search;
mod way;

use layout::stripe::Grid;

// `set` becomes the disks of the smallest cycle of the erased disks. It is as long as the working map, which is used up. What `set` held does
// not matter.
pub fn find(grid: Grid, work: &mut [u8], stripes: &[u8], set: &mut [u8])
    requires table { Table (layout_of grid.size grid.base) work.old stripes.now }
    requires work_value { fatal (layout_of grid.size grid.base) (erasures work.old) ≡ true }
    requires set_len { length set.old ≡ length work.old }
    ensures { erasures set.new ≡ on_smallest (layout_of grid.size grid.base) (erasures work.old) }
{
    let mut near = [0u64; reach::STRIPES];
    let found = search::search(grid, work, stripes, &mut near);
    choose::choose(grid, work, stripes, found, &mut near, set);
}
