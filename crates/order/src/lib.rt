// Plan's order: repairs one after another, until none is allowed. One disk can be held back.
#![tactic(auto)]

ghost use Rattle.std.specs.Prelude.{◌≡◌, ◌≤◌, length};
ghost use Rattle.stripes.specs.Fold.{count};
ghost use Rattle.stripes.specs.Erased.{erasures, without};
ghost use Rattle.stripes.specs.Repair.{any_disk, after};
ghost use Rattle.model.specs.Grid.{layout_of, disks};
ghost use Rattle.entries.specs.Listed.{capacity, listed};
ghost use Rattle.tally.specs.Tally.{Tallied};
ghost use Rattle.order.specs.Pick.{picked, held_repairs};

use layout::stripe::Grid;

// The repair that comes next: a disk and a stripe.
#[derive(Clone, Copy, PartialEq, Eq)]
pub struct Repair {
    pub disk: usize,
    pub stripe: usize,
}

// The repair that comes next in plan's order: of the lowest erased disk that is alone on one of its stripes, by the lower of
// them if it is alone there, else by the higher. `held` is a disk that is passed over; a number that is no disk's holds none back.
pub fn pick(grid: Grid, held: usize, work: &[u8], stripes: &[u8], counts: &[u8]) -> Option<Repair>
    requires tallied { Tallied (layout_of grid.size grid.base) work.now stripes.now counts.now }
    ensures { result ≡ picked (layout_of grid.size grid.base) (without any_disk held) (erasures work.now) }
{
    for d in tally::scan::erased(work) {
        if d != held {
            let pair = tally::table::stripes_of(grid, work, stripes, d);
            let low = pair.low;
            if counts[low] == 1 {
                return Some(Repair {
                    disk: d,
                    stripe: low,
                });
            }
            let high = pair.high;
            if counts[high] == 1 {
                return Some(Repair {
                    disk: d,
                    stripe: high,
                });
            }
        }
    }
    None
}

// All repairs in plan's order, written into the list, and how many they are. What they leave erased stays in `work`, in the table
// and in the counts. `held` is a disk that is passed over; a number that is no disk's holds none back. `erased` is how many disks are
// erased: where all of them are repaired, no more is looked for.
pub fn peel(
    grid: Grid,
    held: usize,
    erased: usize,
    work: &mut [u8],
    stripes: &[u8],
    counts: &mut [u8],
    list: &mut [u32],
) -> usize
    requires erased_value { erased ≡ count (disks grid.size) (erasures work.old) }
    requires tallied_2 { Tallied (layout_of grid.size grid.base) work.old stripes.now counts.old }
    requires capacity_in_bounds { capacity ≤ length list.old }
    ensures number { result ≡ length (held_repairs (layout_of grid.size grid.base) held (erasures work.old)) }
    ensures left { erasures work.new
        ≡ after (erasures work.old) (held_repairs (layout_of grid.size grid.base) held (erasures work.old)) }
    ensures list { listed list.new result ≡ held_repairs (layout_of grid.size grid.base) held (erasures work.old) }
    ensures tallied { Tallied (layout_of grid.size grid.base) work.new stripes.now counts.new }
{
    for k in 0..erased {
        let Some(next) = pick(grid, held, work, stripes, counts) else {
            return k;
        };
        tally::take::take(grid, work, stripes, counts, next.disk);
        entries::put(list, k, next.disk, next.stripe);
    }
    erased
}
