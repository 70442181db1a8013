// Joining: the parts that all erased disks make, without ways.
ghost use Rattle.std.specs.Prelude.{◌≤◌, length};
ghost use Rattle.stripes.specs.Erased.{erasures};
ghost use Rattle.model.specs.Grid.{layout_of};
ghost use Rattle.tally.specs.Tally.{Table};
ghost use Rattle.parts.specs.Parted.{Parted};

use layout::stripe::Grid;

// `parts` becomes the table of the parts that all erased disks make. What it held does not matter.
pub fn join_all(grid: Grid, work: &[u8], stripes: &[u8], parts: &mut [u8])
    requires table { Table (layout_of grid.size grid.base) work.now stripes.now }
    requires base_in_bounds { (layout_of grid.size grid.base).stripe_bound ≤ length parts.old }
    ensures { Parted (layout_of grid.size grid.base) (erasures work.now) (layout_of grid.size grid.base).disks parts.new }
{
    let bound = grid.bound();
    crate::table::start(parts, bound);
    for d in tally::scan::erased(work) {
        let pair = tally::table::stripes_of(grid, work, stripes, d);
        crate::table::unite(parts, bound, pair.low, pair.high);
    }
}
