// Which erased disks the survivors do not determine, and how many these are.
ghost use Rattle.std.specs.Prelude.{◌≡◌, true, eqb};
ghost use Rattle.std.specs.Int.Bits.{bit_or};
ghost use Rattle.stripes.specs.Erased.{erasures};
ghost use Rattle.stripes.specs.Undetermined.{undetermined, lost};
ghost use Rattle.model.specs.Grid.{layout_of};
ghost use Rattle.tally.specs.Tally.{Table};
ghost use Rattle.parts.specs.Ways.{closed_by, Walked};

use layout::stripe::Grid;

// Every link of `some` is one of `set`.
pub fn holds(set: u64, some: u64) -> bool
    ensures { result ≡ eqb (bit_or set some) set }
{
    set | some == set
}

// Says whether an erased disk is undetermined: the links between its stripes are all on cycles.
pub fn is_undetermined(
    grid: Grid,
    work: &[u8],
    stripes: &[u8],
    ways: &[u64],
    closed: u64,
    disk: usize,
) -> bool
    requires table { Table (layout_of grid.size grid.base) work.now stripes.now }
    requires disk_value { erasures work.now disk ≡ true }
    requires walked { Walked (layout_of grid.size grid.base) (erasures work.now) (layout_of grid.size grid.base).disks ways.now }
    requires closed_value { closed ≡ closed_by (layout_of grid.size grid.base) (erasures work.now) (layout_of grid.size grid.base).disks }
    ensures { result ≡ undetermined (layout_of grid.size grid.base) (erasures work.now) disk }
{
    let pair = tally::table::stripes_of(grid, work, stripes, disk);
    let low = pair.low;
    let high = pair.high;
    holds(closed, ways[low] ^ ways[high])
}

// How many erased disks the survivors do not determine.
pub fn undetermined_count(grid: Grid, work: &[u8], stripes: &[u8]) -> usize
    requires table { Table (layout_of grid.size grid.base) work.now stripes.now }
    ensures { result ≡ lost (layout_of grid.size grid.base) (erasures work.now) }
{
    let mut parts = [0u8; tally::STRIPES];
    let mut ways = [0u64; tally::STRIPES];
    let closed = crate::link::link_all(grid, work, stripes, &mut parts, &mut ways);
    let mut count = 0;
    for d in tally::scan::erased(work) {
        if is_undetermined(grid, work, stripes, &ways, closed, d) {
            count += 1;
        }
    }
    count
}
