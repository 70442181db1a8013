// Rebuild: the first repairs of plan made on the array and in the map, as many as one turn allows.
#![tactic(auto)]

ghost use Rattle.std.specs.Prelude.{◌≡◌};
ghost use Rattle.model.specs.Rebuild.{rebuild_turn};
ghost use Rattle.model.specs.Answers.{outcome_of};

mod mark;
mod turn;

use layout::stripe::Grid;
use model::Size;
use model::answer::Verdict;
use refusal::Refusal;

// Restores the first erased sectors in plan's order, at most `limit`, has the map call them present, and lists these repairs in the sheets
// of their positions. Where nothing is erased then, every stripe is tested; if the survivors contradict each other, the sectors of this turn
// and the sheets become zero, and the map stays.
pub fn rebuild(
    size: Size,
    block: usize,
    array: &mut [u8],
    sector: usize,
    map: &mut [u8],
    sheets: &mut [u8],
    limit: usize,
) -> Result<Verdict, Refusal>
    ensures outcome { outcome_of result ≡ (rebuild_turn size block sector array.old map.old sheets.old limit).answer }
    ensures array { array.new ≡ (rebuild_turn size block sector array.old map.old sheets.old limit).array }
    ensures map { map.new ≡ (rebuild_turn size block sector array.old map.old sheets.old limit).map }
    ensures sheets { sheets.new ≡ (rebuild_turn size block sector array.old map.old sheets.old limit).sheets }
{
    refusal::test_sectors(size, block, array.len(), sector)?;
    let sectors = block / sector;
    refusal::test_sheets(size, sectors, map, sheets.len())?;
    if limit == 0 {
        return Err(Refusal::Limit);
    }
    let answer = plan::draft(size, sectors, map, sheets, limit);
    let Verdict::Repairs(count) = answer else {
        return Ok(answer);
    };
    let made = entries::at_most(count, limit);
    let grid = Grid {
        size,
        base: sheet::BASE,
    };
    if !turn::make(grid, block, sector, array, map, sheets, count, made) {
        sheet::zero_all(sheets, sectors);
        return Err(Refusal::Survivors);
    }
    mark::mark_present(map, sectors, sheets);
    Ok(Verdict::Repairs(made))
}
