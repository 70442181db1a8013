// Restoring: repairs that sheets list made on the array, and then every stripe tested.
#![tactic(auto)]

ghost use Rattle.std.specs.Prelude.{◌≡◌, true, ℕ, ◌/◌, ◌<◌, length};
ghost use Rattle.stripes.specs.System.{whole};
ghost use Rattle.stripes.specs.Erased.{erasures};
ghost use Rattle.stripes.specs.Repair.{Peels};
ghost use Rattle.stripes.specs.Sectors.{sectored};
ghost use Rattle.model.specs.Grid.{layout_of, map_bytes, map_fits};
ghost use Rattle.model.specs.Sheet.{narrow, sheets_bytes, sheet_at};
ghost use Rattle.model.specs.Chain.{chain_refusal};
ghost use Rattle.model.specs.Follow.{sheets_entries};
ghost use Rattle.restore.specs.Restored.{Sectored, fits, restored};

pub mod positions;
pub mod repair;
pub mod zero;

use layout::stripe::Grid;
use stripes::Stretch;

// Makes the repairs that the sheets list, and says whether every stripe's sum is zero then. Where one is not, the survivors contradict each
// other, and the erased sectors become zero. All positions are tested at once, as whole blocks.
pub fn restore(
    grid: Grid,
    block: usize,
    sector: usize,
    array: &mut [u8],
    map: &[u8],
    sheets: &[u8],
) -> bool
    requires sectored { Sectored grid.size block sector array.old }
    requires map_value { map_fits (map_bytes grid.size (block / sector)) map.now ≡ true }
    requires sheets_len { length sheets.now ≡ sheets_bytes narrow (block / sector) }
    requires by_index { (p : ℕ) → p < block / sector → chain_refusal narrow (sheet_at narrow p sheets.now) ≡ 0 }
    requires peels { Peels (sectored (block / sector) (layout_of grid.size grid.base)) (erasures map.now) (sheets_entries narrow (block / sector) sheets.now) }
    ensures answer { result
        ≡ fits (sectored (block / sector) (layout_of grid.size grid.base)) (whole sector) array.old
        (sheets_entries narrow (block / sector) sheets.now) }
    ensures array { array.new
        ≡ restored (sectored (block / sector) (layout_of grid.size grid.base)) (whole sector) array.old (erasures map.now)
        (sheets_entries narrow (block / sector) sheets.now) }
{
    positions::repair_positions(grid, block, sector, array, map, sheets);
    let whole = Stretch {
        block,
        offset: 0,
        width: block,
    };
    if sums::nonzero::all_cancel(grid, whole, array) {
        return true;
    }
    zero::zero_erased(sector, array, map);
    false
}
