// The repairs that sheets list, made on the array position by position.
ghost use Rattle.std.specs.Prelude.{◌≡◌, ℕ, ◌/◌, ◌<◌, length};
ghost use Rattle.stripes.specs.System.{whole};
ghost use Rattle.stripes.specs.Erased.{erasures};
ghost use Rattle.stripes.specs.Repair.{Peels, rebuilt};
ghost use Rattle.stripes.specs.Sectors.{sectored};
ghost use Rattle.model.specs.Grid.{layout_of};
ghost use Rattle.model.specs.Sheet.{narrow, sheets_bytes, sheet_at};
ghost use Rattle.model.specs.Chain.{chain_refusal};
ghost use Rattle.model.specs.Follow.{sheets_entries};
ghost use Rattle.restore.specs.Restored.{Sectored};

use layout::stripe::Grid;
use stripes::Stretch;

// Makes the repairs of each sheet, positions in rising order. The map says only of what the contract speaks.
pub fn repair_positions(
    grid: Grid,
    block: usize,
    sector: usize,
    array: &mut [u8],
    map: &[u8],
    sheets: &[u8],
)
    requires sectored { Sectored grid.size block sector array.old }
    requires sheets_len { length sheets.now ≡ sheets_bytes narrow (block / sector) }
    requires by_index { (p : ℕ) → p < block / sector → chain_refusal narrow (sheet_at narrow p sheets.now) ≡ 0 }
    requires peels { Peels (sectored (block / sector) (layout_of grid.size grid.base)) (erasures map.now) (sheets_entries narrow (block / sector) sheets.now) }
    ensures { array.new
        ≡ rebuilt (sectored (block / sector) (layout_of grid.size grid.base)) (whole sector) array.old
        (sheets_entries narrow (block / sector) sheets.now) }
{
    let mut list = [0u32; entries::CAPACITY];
    let sectors = block / sector;
    for p in 0..sectors {
        let at = sheet::BYTES * p;
        let count = chain::list(&sheets[at..at + sheet::BYTES], &mut list);
        let stretch = Stretch {
            block,
            offset: p * sector,
            width: sector,
        };
        crate::repair::repair_all(grid, stretch, array, &list, count);
    }
}
