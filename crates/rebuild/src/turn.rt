// The repairs of one turn.
ghost use Rattle.std.specs.Prelude.{◌≡◌, true, cond, not, ℕ, ◌/◌, ◌≤◌, ◌<◌, length};
ghost use Rattle.stripes.specs.Fold.{count as Fold·count};
ghost use Rattle.stripes.specs.System.{whole};
ghost use Rattle.stripes.specs.Erased.{erasures};
ghost use Rattle.stripes.specs.Repair.{Peels, rebuilt, zeroed};
ghost use Rattle.stripes.specs.Sectors.{sectored};
ghost use Rattle.model.specs.Grid.{layout_of, map_bytes, map_fits};
ghost use Rattle.model.specs.Sheet.{narrow, sheets_bytes, sheet_at};
ghost use Rattle.model.specs.Chain.{chain_refusal};
ghost use Rattle.model.specs.Follow.{sheets_entries};
ghost use Rattle.model.specs.Turn.{contradicts};
ghost use Rattle.restore.specs.Restored.{Sectored};

use layout::stripe::Grid;

// Makes the `made` repairs that the sheets list, of `count` that leave nothing erased. Where these are all of them, every stripe is tested;
// if a sum is not zero, the answer is false and the erased sectors become zero.
pub fn make(
    grid: Grid,
    block: usize,
    sector: usize,
    array: &mut [u8],
    map: &[u8],
    sheets: &[u8],
    count: usize,
    made: usize,
) -> bool
    requires sectored { Sectored grid.size block sector array.old }
    requires map_value { map_fits (map_bytes grid.size (block / sector)) map.now ≡ true }
    requires sheets_len { length sheets.now ≡ sheets_bytes narrow (block / sector) }
    requires by_index { (p : ℕ) → p < block / sector → chain_refusal narrow (sheet_at narrow p sheets.now) ≡ 0 }
    requires peels { Peels (sectored (block / sector) (layout_of grid.size grid.base)) (erasures map.now) (sheets_entries narrow (block / sector) sheets.now) }
    requires made_value { made ≡ length (sheets_entries narrow (block / sector) sheets.now) }
    requires made_le_count { made ≤ count }
    requires count_value { count ≡ Fold·count (sectored (block / sector) (layout_of grid.size grid.base)).disks (erasures map.now) }
    ensures answer { result ≡ not
        (contradicts (sectored (block / sector) (layout_of grid.size grid.base)) (whole sector) array.old map.now
        (sheets_entries narrow (block / sector) sheets.now)) }
    ensures array { array.new
        ≡ cond result
        (rebuilt (sectored (block / sector) (layout_of grid.size grid.base)) (whole sector) array.old
        (sheets_entries narrow (block / sector) sheets.now))
        (zeroed (whole sector) array.old (erasures map.now)) }
{
    if made < count {
        restore::positions::repair_positions(grid, block, sector, array, map, sheets);
        return true;
    }
    restore::restore(grid, block, sector, array, map, sheets)
}
