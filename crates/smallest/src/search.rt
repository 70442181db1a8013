// The disk at which the smallest cycle is met: of the erased disks the lowest that closes a cycle with the fewest disks above it.
ghost use Rattle.std.specs.Prelude.{◌≡◌, true, length};
ghost use Rattle.stripes.specs.Erased.{erasures};
ghost use Rattle.stripes.specs.Repair.{fatal};
ghost use Rattle.model.specs.Grid.{layout_of};
ghost use Rattle.tally.specs.Tally.{Table};
ghost use Rattle.reach.specs.Reached.{word_stripes};
ghost use Rattle.neighbours.specs.Near.{Near};
ghost use Rattle.smallest.specs.Leads.{from as Leads·from, Nearest};

use layout::stripe::Grid;

// The disk, how many others are on the cycle, and the number from which on the table of neighbours has the erased disks.
#[derive(Clone, Copy)]
pub struct Found {
    pub disk: usize,
    pub others: usize,
    pub from: usize,
}

// The other disks of the shortest cycle that a grid can have.
const FEWEST: usize = 3;

// The erased disks go in rising order, and each is taken out of the table of neighbours, which then has the disks above it. A search ends one
// step short of the best so far, so the first of equal disks stays, and there is none where the grid has no shorter cycle.
pub fn search(grid: Grid, work: &[u8], stripes: &[u8], near: &mut [u64]) -> Found
    requires table_2 { Table (layout_of grid.size grid.base) work.now stripes.now }
    requires work_value { fatal (layout_of grid.size grid.base) (erasures work.now) ≡ true }
    requires near_len { length near.old ≡ word_stripes }
    ensures nearest { Nearest (layout_of grid.size grid.base) (erasures work.now) result.disk result.others }
    ensures table { Near (layout_of grid.size grid.base) (Leads·from result.from (erasures work.now)) near.new }
{
    neighbours::load(grid, work, stripes, near);
    let mut disk = work.len();
    let mut others = reach::STRIPES;
    let mut from = 0;
    for d in tally::scan::erased(work) {
        if others <= FEWEST {
            break;
        }
        let pair = tally::table::stripes_of(grid, work, stripes, d);
        neighbours::toggle(near, pair);
        let steps = reach::distance(near, pair.low, pair.high, others - 1);
        if steps < others {
            disk = d;
            others = steps;
        }
        from = d + 1;
    }
    Found { disk, others, from }
}
