// The plan for one wanted disk: the shortest list of repairs that reaches it, or what plan tells of a loss that leaves it.
#![tactic(auto)]

ghost use Rattle.std.specs.Prelude.{◌≡◌, true};
ghost use Rattle.model.specs.Grid.{map_fits, disks};
ghost use Rattle.model.specs.PlanDisk.{can_be_wanted, plan_disk_outcome, plan_disk_sheet};
ghost use Rattle.model.specs.Answers.{outcome_of};

mod reaching;
mod side;

use layout::stripe::Grid;
use model::Size;
use model::answer::Verdict;
use refusal::Refusal;

// The disk is one of the array, and erased. The size says only of what the contract speaks.
fn can_be_wanted(size: Size, map: &[u8], disk: usize) -> bool
    requires { map_fits (disks size) map.now ≡ true }
    ensures { result ≡ can_be_wanted size map.now disk }
{
    if map.len() <= disk {
        return false;
    }
    map[disk] == 1
}

// Writes the repairs for the disk into the sheet, the disk last, or where no list reaches it the loop that plan shows. The map is only
// read.
pub fn plan_disk(size: Size, map: &[u8], sheet: &mut [u8], disk: usize) -> Result<Verdict, Refusal>
    ensures outcome { outcome_of result ≡ plan_disk_outcome size map.now sheet.old disk }
    ensures sheet { sheet.new ≡ plan_disk_sheet size map.now sheet.old disk }
{
    if !refusal::size_fits(size) {
        return Err(Refusal::Size);
    }
    refusal::test_sheets(size, 1, map, sheet.len())?;
    if !can_be_wanted(size, map, disk) {
        return Err(Refusal::Wanted);
    }
    let mut list = [0u32; entries::CAPACITY];
    let grid = Grid {
        size,
        base: sheet::BASE,
    };
    let Some(count) = reaching::find(grid, map, disk, &mut list) else {
        return Ok(plan::draft(size, 1, map, sheet, entries::CAPACITY));
    };
    sheet::write(sheet::REPAIR_KIND, &list, count, sheet);
    Ok(Verdict::Repairs(count))
}
