// One side of a wanted disk: of the other erased disks those in one part.
ghost use Rattle.std.specs.Prelude.{◌≡◌, true, ℕ, ◌≤◌, length};
ghost use Rattle.stripes.specs.Fold.{count};
ghost use Rattle.stripes.specs.Erased.{erasures};
ghost use Rattle.model.specs.Grid.{disks, layout_of};
ghost use Rattle.tally.specs.Tally.{Table};
ghost use Rattle.wanted.specs.Side.{in_part, other_in, side_in};

use layout::stripe::Grid;

// An erased disk lies in the part.
fn is_in(grid: Grid, others: &[u8], stripes: &[u8], parts: &[u8], name: u8, disk: usize) -> bool
    requires table { Table (layout_of grid.size grid.base) others.now stripes.now }
    requires disk_value { erasures others.now disk ≡ true }
    requires base_in_bounds { (layout_of grid.size grid.base).stripe_bound ≤ length parts.now }
    ensures { result ≡ in_part (layout_of grid.size grid.base) parts.now name disk }
{
    let pair = tally::table::stripes_of(grid, others, stripes, disk);
    let low = pair.low;
    parts[low] == name
}

// How many of the others do.
pub fn number(grid: Grid, others: &[u8], stripes: &[u8], parts: &[u8], name: u8) -> usize
    requires table { Table (layout_of grid.size grid.base) others.now stripes.now }
    requires base_in_bounds { (layout_of grid.size grid.base).stripe_bound ≤ length parts.now }
    ensures { result ≡ count (disks grid.size) (other_in (layout_of grid.size grid.base) others.now parts.now name) }
{
    let mut number = 0;
    for d in tally::scan::erased(others) {
        if is_in(grid, others, stripes, parts, name, d) {
            number += 1;
        }
    }
    number
}

// `work` becomes the map with no other erased disks than those in the part. What it held does not matter.
pub fn load(
    grid: Grid,
    map: &[u8],
    others: &[u8],
    stripes: &[u8],
    parts: &[u8],
    name: u8,
    work: &mut [u8],
)
    requires table { Table (layout_of grid.size grid.base) others.now stripes.now }
    requires base_in_bounds { (layout_of grid.size grid.base).stripe_bound ≤ length parts.now }
    requires map_in_bounds { length map.now ≤ length work.old }
    requires others_in_bounds { length others.now ≤ length work.old }
    requires by_index { (i : ℕ) → erasures others.now i ≡ true → erasures map.now i ≡ true }
    ensures { (i : ℕ) → erasures work.new i
        ≡ side_in (layout_of grid.size grid.base) map.now others.now parts.now name i }
{
    tally::load::copy(map, work);
    for d in tally::scan::erased(others) {
        if !is_in(grid, others, stripes, parts, name, d) {
            work[d] = 0;
        }
    }
}
