// Save: the erased sectors that the survivors determine, restored.
#![tactic(auto)]

ghost use Rattle.std.specs.Prelude.{◌≡◌, true, ◌/◌, ◌≤◌, length};
ghost use Rattle.stripes.specs.Fold.{count};
ghost use Rattle.stripes.specs.Erased.{erasures};
ghost use Rattle.stripes.specs.System.{whole};
ghost use Rattle.stripes.specs.Sectors.{sectored, at_position};
ghost use Rattle.stripes.specs.Undetermined.{determined, parts_cancel, saved};
ghost use Rattle.model.specs.Grid.{layout_of, disks, map_bytes, map_fits};
ghost use Rattle.model.specs.Save.{save_answer, save_array};
ghost use Rattle.model.specs.Answers.{saving_of};
ghost use Rattle.entries.specs.Listed.{capacity};
ghost use Rattle.tally.specs.Tally.{Tallied};
ghost use Rattle.solve.specs.Memory.{Room};
ghost use Rattle.sums.specs.Held.{Held};
ghost use Rattle.tally.specs.Column.{Positioned, Located};
ghost use Rattle.restore.specs.Restored.{Sectored};

mod rest;

use layout::stripe::{COLUMN_BASE, Grid};
use model::Size;
use refusal::Refusal;
use stripes::Stretch;

// Saves the determined disks, where the survivors belong to a sealed array, and says how many they are: by repairs as far as these
// reach, then by one sum for each disk that is left. `erased` is the number of erased disks. The length of the working
// map is no disk's number, so no disk is held back.
fn save_determined(
    grid: Grid,
    stretch: Stretch,
    array: &mut [u8],
    erased: usize,
    work: &mut [u8],
    stripes: &[u8],
    counts: &mut [u8],
    list: &mut [u32],
) -> usize
    requires held { Held grid.size stretch array.old }
    requires erased_value { erased ≡ count (disks grid.size) (erasures work.old) }
    requires tallied { Tallied (layout_of grid.size grid.base) work.old stripes.now counts.old }
    requires capacity_in_bounds { capacity ≤ length list.old }
    requires array_value { parts_cancel (layout_of grid.size grid.base) stretch (erasures work.old) array.old ≡ true }
    ensures number { result ≡ count (layout_of grid.size grid.base).disks (determined (layout_of grid.size grid.base) (erasures work.old)) }
    ensures array { array.new ≡ saved (layout_of grid.size grid.base) stretch array.old (erasures work.old) }
{
    let made = order::peel(grid, work.len(), erased, work, stripes, counts, list);
    restore::repair::repair_all(grid, stretch, array, list, made);
    made + rest::sum_rest(grid, stretch, array, work, stripes)
}

// Saves the determined disks of one position, in memory that is lent, and says how many they are. What the memory held does not matter.
fn save_in(
    grid: Grid,
    stretch: Stretch,
    array: &mut [u8],
    map: &[u8],
    sectors: usize,
    position: usize,
    work: &mut [u8],
    stripes: &mut [u8],
    counts: &mut [u8],
    list: &mut [u32],
) -> usize
    requires held { Held grid.size stretch array.old }
    requires located { Located grid.size sectors position map.now work.old }
    requires room { Room (layout_of grid.size grid.base) work.old stripes.old counts.old list.old }
    requires array_value { parts_cancel (layout_of grid.size grid.base) stretch (at_position sectors position (erasures map.now)) array.old ≡ true }
    ensures number { result
        ≡ count (layout_of grid.size grid.base).disks
        (determined (layout_of grid.size grid.base) (at_position sectors position (erasures map.now))) }
    ensures array { array.new
        ≡ saved (layout_of grid.size grid.base) stretch array.old (at_position sectors position (erasures map.now)) }
{
    tally::load::load_position(grid.size, map, sectors, position, work);
    let erased = tally::load::tally(grid, work, stripes, counts);
    save_determined(grid, stretch, array, erased, work, stripes, counts, list)
}

// The same with memory of its own.
fn save_position(
    grid: Grid,
    stretch: Stretch,
    array: &mut [u8],
    map: &[u8],
    sectors: usize,
    position: usize,
) -> usize
    requires held { Held grid.size stretch array.old }
    requires positioned { Positioned grid.size sectors position map.now }
    requires array_value { parts_cancel (layout_of grid.size grid.base) stretch (at_position sectors position (erasures map.now)) array.old ≡ true }
    ensures number { result
        ≡ count (layout_of grid.size grid.base).disks
        (determined (layout_of grid.size grid.base) (at_position sectors position (erasures map.now))) }
    ensures array { array.new
        ≡ saved (layout_of grid.size grid.base) stretch array.old (at_position sectors position (erasures map.now)) }
{
    let disks = layout::disks(grid.size);
    let mut work = [0u8; tally::DISKS];
    let mut stripes = [0u8; tally::TABLE];
    let mut counts = [0u8; tally::STRIPES];
    let mut list = [0u32; entries::CAPACITY];
    save_in(
        grid,
        stretch,
        array,
        map,
        sectors,
        position,
        &mut work[..disks],
        &mut stripes,
        &mut counts,
        &mut list,
    )
}

// Saves the determined sectors of every position, where the survivors belong to a sealed array, and says how many they are.
fn save_all(grid: Grid, block: usize, sector: usize, array: &mut [u8], map: &[u8]) -> usize
    requires sectored { Sectored grid.size block sector array.old }
    requires map_value { map_fits (map_bytes grid.size (block / sector)) map.now ≡ true }
    requires array_value { parts_cancel (sectored (block / sector) (layout_of grid.size grid.base)) (whole sector) (erasures map.now) array.old ≡ true }
    ensures number { result
        ≡ count (sectored (block / sector) (layout_of grid.size grid.base)).disks
        (determined (sectored (block / sector) (layout_of grid.size grid.base)) (erasures map.now)) }
    ensures array { array.new
        ≡ saved (sectored (block / sector) (layout_of grid.size grid.base)) (whole sector) array.old (erasures map.now) }
{
    let sectors = block / sector;
    let mut number = 0;
    for p in 0..sectors {
        let stretch = Stretch {
            block,
            offset: p * sector,
            width: sector,
        };
        number += save_position(grid, stretch, array, map, sectors, p);
    }
    number
}

// Restores each erased sector that the survivors determine and leaves the others as they are. The survivors of all positions are judged
// before a block is written. Where they contradict each other at any, all erased sectors become zero. The map is only read. The answer is
// how many sectors were saved.
pub fn save(
    size: Size,
    block: usize,
    array: &mut [u8],
    sector: usize,
    map: &[u8],
) -> Result<usize, Refusal>
    ensures answer { saving_of result ≡ save_answer size block sector array.old map.now }
    ensures array { array.new ≡ save_array size block sector array.old map.now }
{
    refusal::test_sectors(size, block, array.len(), sector)?;
    if !refusal::map_fits(size, block / sector, map) {
        return Err(Refusal::Map);
    }
    let grid = Grid {
        size,
        base: COLUMN_BASE,
    };
    if !survivors::all_fit(grid, block, sector, array, map) {
        restore::zero::zero_erased(sector, array, map);
        return Err(Refusal::Survivors);
    }
    let number = save_all(grid, block, sector, array, map);
    Ok(number)
}
