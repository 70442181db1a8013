// The other disks of the smallest cycle, once its lowest disk is known.
ghost use Rattle.std.specs.Prelude.{◌≡◌, [], ◌∷◌, length};
ghost use Rattle.stripes.specs.Erased.{erasures, above};
ghost use Rattle.stripes.specs.Smallest.{on_smallest};
ghost use Rattle.model.specs.Grid.{layout_of};
ghost use Rattle.tally.specs.Tally.{Table};
ghost use Rattle.neighbours.specs.Near.{Near};
ghost use Rattle.smallest.specs.Leads.{from as Leads·from, Nearest};
ghost use Rattle.smallest.specs.Ways.{Measured};

use crate::search::Found;
use layout::stripe::{Grid, Pair};

// The working map is left with the disks above the lowest one of the cycle, and the tables become those of these disks: the table of
// neighbours is so already where the search ended at that disk. The answer is the stripes of the lowest one. What the table of levels held
// does not matter.
fn begin(
    grid: Grid,
    work: &mut [u8],
    stripes: &[u8],
    found: Found,
    near: &mut [u64],
    levels: &mut [u8],
) -> Pair
    requires table { Table (layout_of grid.size grid.base) work.old stripes.now }
    requires nearest { Nearest (layout_of grid.size grid.base) (erasures work.old) found.disk found.others }
    requires near { Near (layout_of grid.size grid.base) (Leads·from found.from (erasures work.old)) near.old }
    requires levels_len { length levels.old ≡ 128 }
    ensures stripes { (layout_of grid.size grid.base).through found.disk ≡ result.low ∷ result.high ∷ [] }
    ensures left { erasures work.new ≡ above found.disk (erasures work.old) }
    ensures measured { Measured (layout_of grid.size grid.base) (erasures work.new) work.new stripes.now near.new
        levels.new result.low result.high found.others }
{
    let ends = tally::table::stripes_of(grid, work, stripes, found.disk);
    zeros::wipe(work, 0, found.disk + 1);
    if found.from != found.disk + 1 {
        neighbours::load(grid, work, stripes, near);
    }
    crate::way::measure(near, ends, found.others, levels);
    ends
}

// `set` becomes the disks of the smallest cycle. Those above the lowest one go in rising order: one that is on a shortest way between its
// stripes, over what is left, is on the cycle, and the other disks of its level are dropped. What is left is in the table of neighbours alone.
pub fn choose(
    grid: Grid,
    work: &mut [u8],
    stripes: &[u8],
    found: Found,
    near: &mut [u64],
    set: &mut [u8],
)
    requires table { Table (layout_of grid.size grid.base) work.old stripes.now }
    requires nearest { Nearest (layout_of grid.size grid.base) (erasures work.old) found.disk found.others }
    requires near { Near (layout_of grid.size grid.base) (Leads·from found.from (erasures work.old)) near.old }
    requires set_len { length set.old ≡ length work.old }
    ensures { erasures set.new ≡ on_smallest (layout_of grid.size grid.base) (erasures work.old) }
{
    let disk = found.disk;
    let others = found.others;
    let mut levels = [0u8; 128];
    let ends = begin(grid, work, stripes, found, near, &mut levels);
    zeros::wipe(set, 0, set.len());
    let mut chosen = 0;
    let left = tally::scan::Scan {
        map: work,
        from: disk + 1,
    };
    for d in left {
        let pair = tally::table::stripes_of(grid, work, stripes, d);
        let level = crate::way::level_of(near, &levels, pair, others);
        if level < others {
            set[d] = 1;
            chosen += 1;
            if chosen == others {
                break;
            }
            crate::way::narrow(near, &mut levels, ends, others, pair, level);
        }
    }
    set[disk] = 1;
}
