// The side of a determined disk: the stripes that the other erased disks join with its lower one.
ghost use Rattle.std.specs.Prelude.{◌≡◌, true, false, not, ◌&&◌, ◌≤◌, eqb, length};
ghost use Rattle.std.specs.Int.Bits.{bit_or};
ghost use Rattle.stripes.specs.Fold.{bit};
ghost use Rattle.stripes.specs.Erased.{erasures};
ghost use Rattle.stripes.specs.Undetermined.{undetermined};
ghost use Rattle.model.specs.Grid.{layout_of};
ghost use Rattle.tally.specs.Tally.{Table};
ghost use Rattle.parts.specs.Parted.{Parted};
ghost use Rattle.parts.specs.Ways.{Walked, SideOf};

use layout::stripe::Grid;

// 1 for a stripe in the part `name` whose way to the lower stripe, `way`, does not lead over the disk, which is the link `disk`; else 0.
fn beside(part: u8, name: u8, way: u64, disk: u64) -> u8
    ensures { result ≡ bit (eqb part name && not (eqb (bit_or way disk) way)) }
{
    if part != name {
        return 0;
    }
    if crate::lost::holds(way, disk) {
        return 0;
    }
    1
}

// `side` becomes the table of these stripes.
pub fn mark(
    grid: Grid,
    work: &[u8],
    stripes: &[u8],
    parts: &[u8],
    ways: &[u64],
    disk: usize,
    side: &mut [u8],
)
    requires table { Table (layout_of grid.size grid.base) work.now stripes.now }
    requires disk_value { erasures work.now disk ≡ true }
    requires disk_value_2 { undetermined (layout_of grid.size grid.base) (erasures work.now) disk ≡ false }
    requires parted { Parted (layout_of grid.size grid.base) (erasures work.now) (layout_of grid.size grid.base).disks parts.now }
    requires walked { Walked (layout_of grid.size grid.base) (erasures work.now) (layout_of grid.size grid.base).disks ways.now }
    requires base_in_bounds { (layout_of grid.size grid.base).stripe_bound ≤ length side.old }
    ensures { SideOf (layout_of grid.size grid.base) (erasures work.now) disk side.new }
{
    let pair = tally::table::stripes_of(grid, work, stripes, disk);
    let low = pair.low;
    let high = pair.high;
    let name = parts[low];
    let way = ways[low];
    let link = way ^ ways[high];
    for s in 0..grid.bound() {
        side[s] = beside(parts[s], name, ways[s] ^ way, link);
    }
}
