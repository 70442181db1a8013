// A repair made on the array.
ghost use Rattle.std.specs.Prelude.{◌≡◌, true, ◌<◌};
ghost use Rattle.stripes.specs.System.{on};
ghost use Rattle.stripes.specs.Repair.{repaired};
ghost use Rattle.model.specs.Grid.{layout_of, disks};
ghost use Rattle.sums.specs.Held.{Held};

use layout::stripe::Grid;
use stripes::Stretch;

// The stretch of a disk becomes the sum of those of the other disks of a stripe through it.
pub fn repair(grid: Grid, stretch: Stretch, array: &mut [u8], disk: usize, stripe: usize)
    requires held { Held grid.size stretch array.old }
    requires disk_bound { disk < disks grid.size }
    requires stripe_value { on (layout_of grid.size grid.base) disk stripe ≡ true }
    ensures { array.new
        ≡ repaired (layout_of grid.size grid.base) stretch array.old (record { disk = disk; stripe = stripe }) }
{
    let run = grid.disks_on(stripe);
    let own = grid.place_on(disk, stripe);
    xor::fill::fill(
        array,
        run.first * stretch.block + stretch.offset,
        run.step * stretch.block,
        run.count,
        own,
        stretch.width,
    );
}
