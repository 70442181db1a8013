// A repair's effect on the working map.
ghost use Rattle.std.specs.Prelude.{◌≡◌, true};
ghost use Rattle.stripes.specs.Erased.{erasures, without};
ghost use Rattle.model.specs.Grid.{layout_of};
ghost use Rattle.tally.specs.Tally.{Tallied};

use layout::stripe::Grid;

// A disk is repaired: it is no longer erased, and both its stripes hold one erased disk less.
pub fn take(grid: Grid, work: &mut [u8], stripes: &[u8], counts: &mut [u8], disk: usize)
    requires tallied_2 { Tallied (layout_of grid.size grid.base) work.old stripes.now counts.old }
    requires disk_value { erasures work.old disk ≡ true }
    ensures erased { erasures work.new ≡ without (erasures work.old) disk }
    ensures tallied { Tallied (layout_of grid.size grid.base) work.new stripes.now counts.new }
{
    let pair = crate::table::stripes_of(grid, work, stripes, disk);
    work[disk] = 0;
    crate::count::lower(counts, pair.low);
    crate::count::lower(counts, pair.high);
}
