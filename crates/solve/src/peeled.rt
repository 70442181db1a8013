// The erased disks of a map, loaded and peeled.
ghost use Rattle.std.specs.Prelude.{◌≡◌, true};
ghost use Rattle.stripes.specs.Erased.{erasures};
ghost use Rattle.model.specs.Grid.{layout_of, map_fits, disks};
ghost use Rattle.solve.specs.Memory.{Room, Peeled as Memory-as-Peeled};

use layout::stripe::Grid;

// The number of repairs, and of disks that they leave erased.
#[derive(Clone, Copy)]
pub struct Peeled {
    pub made: usize,
    pub left: usize,
}

// Lists the repairs of the erased disks in plan's order. What they leave erased stays in `work`, with its stripes in the table. The map's length
// is no disk's number, so no disk is held back.
pub fn peel(
    grid: Grid,
    map: &[u8],
    work: &mut [u8],
    stripes: &mut [u8],
    counts: &mut [u8],
    list: &mut [u32],
) -> Peeled
    requires map_value { map_fits (disks grid.size) map.now ≡ true }
    requires room { Room (layout_of grid.size grid.base) work.old stripes.old counts.old list.old }
    ensures { Memory-as-Peeled (layout_of grid.size grid.base) (erasures map.now) result.made result.left work.new stripes.new list.new }
{
    tally::load::copy(map, work);
    let erased = tally::load::tally(grid, work, stripes, counts);
    let made = order::peel(grid, map.len(), erased, work, stripes, counts, list);
    Peeled {
        made,
        left: erased - made,
    }
}
