// The repairs of a loss in plan's order, or for a fatal loss the cycle that shows it, as a list.
#![tactic(auto)]

ghost use Rattle.std.specs.Prelude.{◌≡◌, true, ◌≤◌, length};
ghost use Rattle.stripes.specs.Erased.{erasures};
ghost use Rattle.model.specs.Grid.{layout_of, disks, map_fits};
ghost use Rattle.entries.specs.Listed.{capacity};
ghost use Rattle.solve.specs.Memory.{Room};
ghost use Rattle.solve.specs.Solved.{Solves};

mod fatal;
mod peeled;

use layout::stripe::Grid;

#[derive(Clone, Copy)]
pub enum Solved {
    // The number of repairs.
    Repairs(usize),
    // The number of disks in the cycle, and of undetermined disks.
    Cycle { disks: usize, lost: usize },
}

// `solve` in memory that is lent. What it held does not matter.
fn solve_in(
    grid: Grid,
    map: &[u8],
    work: &mut [u8],
    stripes: &mut [u8],
    counts: &mut [u8],
    list: &mut [u32],
) -> Solved
    requires map_value { map_fits (disks grid.size) map.now ≡ true }
    requires room { Room (layout_of grid.size grid.base) work.old stripes.old counts.old list.old }
    ensures { Solves (layout_of grid.size grid.base) (erasures map.now) result list.new }
{
    let found = peeled::peel(grid, map, work, stripes, counts, list);
    if found.left == 0 {
        return Solved::Repairs(found.made);
    }
    let lost = parts::lost::undetermined_count(grid, work, stripes);
    Solved::Cycle {
        disks: fatal::show(grid, work, stripes, list),
        lost,
    }
}

// Lists the repairs of a map's erased disks in plan's order, or for a fatal loss the smallest cycle of them. The list has room for
// entries::CAPACITY words. No other function makes the planner's working memory; the working map is as long as the map, so that
// nothing behind it is looked at.
pub fn solve(grid: Grid, map: &[u8], list: &mut [u32]) -> Solved
    requires map_value { map_fits (disks grid.size) map.now ≡ true }
    requires capacity_in_bounds { capacity ≤ length list.old }
    ensures { Solves (layout_of grid.size grid.base) (erasures map.now) result list.new }
{
    let mut work = [0u8; tally::DISKS];
    let mut stripes = [0u8; tally::TABLE];
    let mut counts = [0u8; tally::STRIPES];
    solve_in(
        grid,
        map,
        &mut work[..map.len()],
        &mut stripes,
        &mut counts,
        list,
    )
}
