// Follow: the repairs of sheets from elsewhere made on the array.
#![tactic(auto)]

ghost use Rattle.std.specs.Prelude.{◌≡◌};
ghost use Rattle.model.specs.Follow.{follow_outcome, follow_array};
ghost use Rattle.model.specs.Answers.{repairs_of};

mod judge;

use layout::stripe::Grid;
use model::Size;
use refusal::Refusal;

// Restores the erased sectors by the repairs that the sheets list. The sheets of all positions are judged before any block is changed, by
// each number before the next. Where the survivors contradict each other, the erased sectors become zero. The map and the sheets are only
// read. The answer is how many repairs they list.
pub fn follow(
    size: Size,
    block: usize,
    array: &mut [u8],
    sector: usize,
    map: &[u8],
    sheets: &[u8],
) -> Result<usize, Refusal>
    ensures outcome { repairs_of result ≡ follow_outcome size block sector array.old map.now sheets.now }
    ensures array { array.new ≡ follow_array size block sector array.old map.now sheets.now }
{
    refusal::test_sectors(size, block, array.len(), sector)?;
    let sectors = block / sector;
    refusal::test_sheets(size, sectors, map, sheets.len())?;
    let count = judge::read_all(sectors, sheets)?;
    let grid = Grid {
        size,
        base: sheet::BASE,
    };
    if !judge::all_clear(grid, sectors, map, sheets) {
        return Err(Refusal::Repairs);
    }
    if !restore::restore(grid, block, sector, array, map, sheets) {
        return Err(Refusal::Survivors);
    }
    Ok(count)
}
