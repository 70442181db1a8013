// The determined disks that no repair reaches.
ghost use Rattle.std.specs.Prelude.{◌≡◌, true};
ghost use Rattle.stripes.specs.Fold.{count};
ghost use Rattle.stripes.specs.Erased.{erasures};
ghost use Rattle.stripes.specs.Undetermined.{determined, saved};
ghost use Rattle.model.specs.Grid.{layout_of};
ghost use Rattle.tally.specs.Tally.{Table};
ghost use Rattle.parts.specs.Parted.{Parted};
ghost use Rattle.parts.specs.Ways.{closed_by, Walked};
ghost use Rattle.sums.specs.Held.{Held};
ghost use Rattle.save.specs.Saving.{saved_if};

use layout::stripe::Grid;
use stripes::Stretch;

// Says whether an erased disk is determined, and if so sets it to the sum over the stripes that the others join with its lower one.
// The tables and the links on cycles are those of all erased disks.
fn sum_disk(
    grid: Grid,
    stretch: Stretch,
    array: &mut [u8],
    work: &[u8],
    stripes: &[u8],
    parts: &[u8],
    ways: &[u64],
    closed: u64,
    disk: usize,
) -> bool
    requires held { Held grid.size stretch array.old }
    requires table { Table (layout_of grid.size grid.base) work.now stripes.now }
    requires disk_value { erasures work.now disk ≡ true }
    requires parted { Parted (layout_of grid.size grid.base) (erasures work.now) (layout_of grid.size grid.base).disks parts.now }
    requires walked { Walked (layout_of grid.size grid.base) (erasures work.now) (layout_of grid.size grid.base).disks ways.now }
    requires closed_value { closed ≡ closed_by (layout_of grid.size grid.base) (erasures work.now) (layout_of grid.size grid.base).disks }
    ensures answer { result ≡ determined (layout_of grid.size grid.base) (erasures work.now) disk }
    ensures array { array.new ≡ saved_if (layout_of grid.size grid.base) stretch array.old (erasures work.now) disk result }
{
    if parts::lost::is_undetermined(grid, work, stripes, ways, closed, disk) {
        return false;
    }
    let mut side = [0u8; tally::STRIPES];
    let mut list = [0u16; tally::DISKS];
    parts::side::mark(grid, work, stripes, parts, ways, disk, &mut side);
    sums::cut::fill(grid, stretch, array, work, &side, 1, &mut list, disk);
    true
}

// Sums each determined disk of those that are still erased, and says how many they are.
pub fn sum_rest(
    grid: Grid,
    stretch: Stretch,
    array: &mut [u8],
    work: &[u8],
    stripes: &[u8],
) -> usize
    requires held { Held grid.size stretch array.old }
    requires table { Table (layout_of grid.size grid.base) work.now stripes.now }
    ensures number { result ≡ count (layout_of grid.size grid.base).disks (determined (layout_of grid.size grid.base) (erasures work.now)) }
    ensures array { array.new ≡ saved (layout_of grid.size grid.base) stretch array.old (erasures work.now) }
{
    let mut parts = [0u8; tally::STRIPES];
    let mut ways = [0u64; tally::STRIPES];
    let closed = parts::link::link_all(grid, work, stripes, &mut parts, &mut ways);
    let mut number = 0;
    for d in tally::scan::erased(work) {
        if sum_disk(
            grid, stretch, array, work, stripes, &parts, &ways, closed, d,
        ) {
            number += 1;
        }
    }
    number
}
