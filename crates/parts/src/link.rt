// Linking: the erased disks go one after the other. A link makes one part of the two that its stripes are in, and every other disk
// closes a cycle of links.
ghost use Rattle.std.specs.Prelude.{◌≡◌, true, ◌+◌, ◌^◌, ◌≤◌, ◌<◌, length};
ghost use Rattle.stripes.specs.Fold.{gate};
ghost use Rattle.stripes.specs.Erased.{erasures};
ghost use Rattle.model.specs.Grid.{layout_of};
ghost use Rattle.tally.specs.Tally.{Table};
ghost use Rattle.parts.specs.Parted.{Parted};
ghost use Rattle.parts.specs.Ways.{joined_before, between, way_by, closed_by, Walked};

use layout::stripe::Grid;

// The set of one link.
fn alone(link: u8) -> u64
    requires { link < 64 }
    ensures { result ≡ 2 ^ link }
{
    1u64 << link
}

// The tables of the disks before an erased disk become those of the disks up to it. The answer is the links that it closes a cycle
// with, and none if it is a link.
fn link(
    grid: Grid,
    work: &[u8],
    stripes: &[u8],
    parts: &mut [u8],
    ways: &mut [u64],
    disk: usize,
) -> u64
    requires table { Table (layout_of grid.size grid.base) work.now stripes.now }
    requires disk_value { erasures work.now disk ≡ true }
    requires parted { Parted (layout_of grid.size grid.base) (erasures work.now) disk parts.old }
    requires walked { Walked (layout_of grid.size grid.base) (erasures work.now) disk ways.old }
    ensures parts { Parted (layout_of grid.size grid.base) (erasures work.now) (disk + 1) parts.new }
    ensures ways { Walked (layout_of grid.size grid.base) (erasures work.now) (disk + 1) ways.new }
    ensures answer { result
        ≡ gate (joined_before (layout_of grid.size grid.base) (erasures work.now) disk)
        (between (layout_of grid.size grid.base) (way_by (layout_of grid.size grid.base) (erasures work.now) disk) disk) }
{
    let pair = tally::table::stripes_of(grid, work, stripes, disk);
    let low = pair.low;
    let high = pair.high;
    let links = ways[low] ^ ways[high];
    let old = parts[high];
    if parts[low] == old {
        return links;
    }
    let own = alone(old);
    let bound = grid.bound();
    crate::table::extend(parts, ways, bound, old, links ^ own);
    crate::table::unite(parts, bound, low, high);
    0
}

// The tables become those of all erased disks, and the answer is the links on cycles. What the tables held does not matter.
pub fn link_all(grid: Grid, work: &[u8], stripes: &[u8], parts: &mut [u8], ways: &mut [u64]) -> u64
    requires table { Table (layout_of grid.size grid.base) work.now stripes.now }
    requires base_in_bounds { (layout_of grid.size grid.base).stripe_bound ≤ length parts.old }
    requires base_in_bounds_2 { (layout_of grid.size grid.base).stripe_bound ≤ length ways.old }
    ensures parts { Parted (layout_of grid.size grid.base) (erasures work.now) (layout_of grid.size grid.base).disks parts.new }
    ensures ways { Walked (layout_of grid.size grid.base) (erasures work.now) (layout_of grid.size grid.base).disks ways.new }
    ensures answer { result ≡ closed_by (layout_of grid.size grid.base) (erasures work.now) (layout_of grid.size grid.base).disks }
{
    let bound = grid.bound();
    crate::table::start(parts, bound);
    crate::table::clear(ways, bound);
    let mut closed = 0u64;
    for d in tally::scan::erased(work) {
        closed |= link(grid, work, stripes, parts, ways, d);
    }
    closed
}
