// The survivors judged: whether they belong to a sealed array.
#![tactic(auto)]

ghost use Rattle.std.specs.Prelude.{◌≡◌, true, not, ◌||◌, ◌/◌, ◌≤◌, ◌<◌, eqb, length, get_or};
ghost use Rattle.stripes.specs.Fold.{every};
ghost use Rattle.stripes.specs.System.{whole};
ghost use Rattle.stripes.specs.Erased.{erasures};
ghost use Rattle.stripes.specs.Sectors.{sectored, at_position};
ghost use Rattle.stripes.specs.Undetermined.{parts_cancel};
ghost use Rattle.model.specs.Grid.{layout_of, disks, map_bytes, map_fits};
ghost use Rattle.tally.specs.Tally.{Table};
ghost use Rattle.tally.specs.Column.{Positioned};
ghost use Rattle.restore.specs.Restored.{Sectored};
ghost use Rattle.sums.specs.Held.{Held};
ghost use Rattle.sums.specs.Cut.{in_part, cut_sum};

use layout::stripe::Grid;
use stripes::Stretch;

// The sum over the part that a stripe names is zero. A stripe that does not name its part passes: the part is met elsewhere. The list
// is room to work in.
fn part_fits(
    grid: Grid,
    stretch: Stretch,
    array: &[u8],
    work: &[u8],
    parts: &[u8],
    stripe: usize,
    list: &mut [u16],
) -> bool
    requires held { Held grid.size stretch array.now }
    requires size_in_bounds { disks grid.size ≤ length work.now }
    requires base_in_bounds { (layout_of grid.size grid.base).stripe_bound ≤ length parts.now }
    requires stripe_in_bounds { stripe < length parts.now }
    requires size_in_bounds_2 { disks grid.size ≤ length list.old }
    ensures { result
        ≡ (not (eqb (get_or parts.now stripe 0) stripe)
        || every stretch.width (λ p.
        eqb
        (cut_sum (layout_of grid.size grid.base) stretch (erasures work.now) (in_part parts.now (get_or parts.now stripe 0))
        array.now p)
        0)) }
{
    let name = parts[stripe];
    if name as usize != stripe {
        return true;
    }
    sums::cut::cancels(grid, stretch, array, work, parts, name, list)
}

// For each part that the erased disks make, the sum over its stripes is zero. A survivor on two stripes of a part counts for nothing
// there, so that none is read more than twice.
fn survivors_fit(grid: Grid, stretch: Stretch, array: &[u8], work: &[u8], stripes: &[u8]) -> bool
    requires held { Held grid.size stretch array.now }
    requires table { Table (layout_of grid.size grid.base) work.now stripes.now }
    ensures { result ≡ parts_cancel (layout_of grid.size grid.base) stretch (erasures work.now) array.now }
{
    let mut parts = [0u8; tally::STRIPES];
    let mut list = [0u16; tally::DISKS];
    parts::join::join_all(grid, work, stripes, &mut parts);
    for s in 0..grid.bound() {
        if !part_fits(grid, stretch, array, work, &parts, s, &mut list) {
            return false;
        }
    }
    true
}

// The same at one position of a map with `sectors` bytes for each disk.
fn position_fits(
    grid: Grid,
    stretch: Stretch,
    array: &[u8],
    map: &[u8],
    sectors: usize,
    position: usize,
) -> bool
    requires held { Held grid.size stretch array.now }
    requires positioned { Positioned grid.size sectors position map.now }
    ensures { result ≡ parts_cancel (layout_of grid.size grid.base) stretch (at_position sectors position (erasures map.now)) array.now }
{
    let disks = layout::disks(grid.size);
    let mut memory = [0u8; tally::DISKS];
    let mut stripes = [0u8; tally::TABLE];
    let mut counts = [0u8; tally::STRIPES];
    let work = &mut memory[..disks];
    tally::load::load_position(grid.size, map, sectors, position, work);
    tally::load::tally(grid, work, &mut stripes, &mut counts);
    survivors_fit(grid, stretch, array, work, &stripes)
}

// The survivors of every position belong to a sealed array.
pub fn all_fit(grid: Grid, block: usize, sector: usize, array: &[u8], map: &[u8]) -> bool
    requires sectored { Sectored grid.size block sector array.now }
    requires map_value { map_fits (map_bytes grid.size (block / sector)) map.now ≡ true }
    ensures { result ≡ parts_cancel (sectored (block / sector) (layout_of grid.size grid.base)) (whole sector) (erasures map.now) array.now }
{
    let sectors = block / sector;
    for p in 0..sectors {
        let stretch = Stretch {
            block,
            offset: p * sector,
            width: sector,
        };
        if !position_fits(grid, stretch, array, map, sectors, p) {
            return false;
        }
    }
    true
}
