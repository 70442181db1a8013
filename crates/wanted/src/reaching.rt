// The list of repairs that reaches a wanted disk: one side of it, and then the disk. All memory is lent, and what it held does not
// matter.
ghost use Rattle.std.specs.Prelude.{◌≡◌, true, cond, ◌*◌, ◌≤◌, ◌<◌, length};
ghost use Rattle.stripes.specs.System.{on};
ghost use Rattle.stripes.specs.Erased.{erasures};
ghost use Rattle.stripes.specs.Wanted.{serves};
ghost use Rattle.model.specs.Grid.{layout_of, map_fits, disks};
ghost use Rattle.layout.specs.Stripe.{stripe_limit};
ghost use Rattle.entries.specs.Listed.{capacity};
ghost use Rattle.solve.specs.Memory.{Room};
ghost use Rattle.wanted.specs.Found.{Others, Tried, Found};

use layout::stripe::Grid;

// Loads the erased disks but one: into a map of their own, with their stripes in the table, and the parts that they make.
fn load_others(
    grid: Grid,
    map: &[u8],
    disk: usize,
    others: &mut [u8],
    stripes: &mut [u8],
    counts: &mut [u8],
    parts: &mut [u8],
)
    requires map_value { map_fits (disks grid.size) map.now ≡ true }
    requires disk_in_bounds { disk < length map.now }
    requires map_in_bounds { length map.now ≤ length others.old }
    requires others_in_bounds { 2 * length others.old ≤ length stripes.old }
    requires stripe_limit_in_bounds { stripe_limit ≤ length counts.old }
    requires base_in_bounds { (layout_of grid.size grid.base).stripe_bound ≤ length parts.old }
    ensures { Others (layout_of grid.size grid.base) map.now disk others.new stripes.new parts.new }
{
    tally::load::copy(map, others);
    others[disk] = 0;
    tally::load::tally(grid, others, stripes, counts);
    parts::join::join_all(grid, others, stripes, parts);
}

// Lists the repairs of the side at a stripe, while the disk is held back, and the disk behind them. The answer is how many they are, or
// none if the stripe does not serve.
fn try_stripe(
    grid: Grid,
    map: &[u8],
    disk: usize,
    stripe: usize,
    others: &[u8],
    parts: &[u8],
    work: &mut [u8],
    stripes: &mut [u8],
    counts: &mut [u8],
    list: &mut [u32],
) -> Option<usize>
    requires map_value { map_fits (disks grid.size) map.now ≡ true }
    requires disk_value { erasures map.now disk ≡ true }
    requires stripe_value { on (layout_of grid.size grid.base) disk stripe ≡ true }
    requires others { Others (layout_of grid.size grid.base) map.now disk others.now stripes.old parts.now }
    requires room { Room (layout_of grid.size grid.base) work.old stripes.old counts.old list.old }
    requires others_len { length others.now ≡ length work.old }
    ensures { Tried (layout_of grid.size grid.base) (erasures map.now) disk stripe result list.new }
{
    crate::side::load(grid, map, others, stripes, parts, parts[stripe], work);
    let erased = tally::load::tally(grid, work, stripes, counts);
    let made = order::peel(grid, disk, erased, work, stripes, counts, list);
    if counts[stripe] != 1 {
        return None;
    }
    entries::put(list, made, disk, stripe);
    Some(made + 1)
}

// The list by the first of two stripes, or if that does not serve by the second.
fn try_both(
    grid: Grid,
    map: &[u8],
    disk: usize,
    first: usize,
    second: usize,
    others: &[u8],
    parts: &[u8],
    work: &mut [u8],
    stripes: &mut [u8],
    counts: &mut [u8],
    list: &mut [u32],
) -> Option<usize>
    requires map_value { map_fits (disks grid.size) map.now ≡ true }
    requires disk_value { erasures map.now disk ≡ true }
    requires first_value { on (layout_of grid.size grid.base) disk first ≡ true }
    requires second_value { on (layout_of grid.size grid.base) disk second ≡ true }
    requires others { Others (layout_of grid.size grid.base) map.now disk others.now stripes.old parts.now }
    requires room { Room (layout_of grid.size grid.base) work.old stripes.old counts.old list.old }
    requires others_len { length others.now ≡ length work.old }
    ensures { Tried (layout_of grid.size grid.base) (erasures map.now) disk
        (cond (serves (layout_of grid.size grid.base) (erasures map.now) disk first) first second) result list.new }
{
    if let Some(count) = try_stripe(
        grid, map, disk, first, others, parts, work, stripes, counts, list,
    ) {
        return Some(count);
    }
    tally::load::tally(grid, others, stripes, counts);
    try_stripe(
        grid, map, disk, second, others, parts, work, stripes, counts, list,
    )
}

// `find` in memory that is lent. The side with fewer disks is tried first, on a tie that at the lower stripe: if it serves, no list is
// shorter.
fn find_in(
    grid: Grid,
    map: &[u8],
    disk: usize,
    others: &mut [u8],
    parts: &mut [u8],
    work: &mut [u8],
    stripes: &mut [u8],
    counts: &mut [u8],
    list: &mut [u32],
) -> Option<usize>
    requires map_value { map_fits (disks grid.size) map.now ≡ true }
    requires disk_value { erasures map.now disk ≡ true }
    requires base_in_bounds { (layout_of grid.size grid.base).stripe_bound ≤ length parts.old }
    requires room { Room (layout_of grid.size grid.base) work.old stripes.old counts.old list.old }
    requires others_len { length others.old ≡ length work.old }
    ensures { Found (layout_of grid.size grid.base) (erasures map.now) disk result list.new }
{
    load_others(grid, map, disk, others, stripes, counts, parts);
    let pair = grid.stripes_of(disk);
    let low = pair.low;
    let high = pair.high;
    let few = crate::side::number(grid, others, stripes, parts, parts[low]);
    let fewer = crate::side::number(grid, others, stripes, parts, parts[high]);
    let (first, second) = if fewer < few {
        (high, low)
    } else {
        (low, high)
    };
    try_both(
        grid, map, disk, first, second, others, parts, work, stripes, counts, list,
    )
}

// Lists the repairs for an erased disk of a map, and says how many they are, where a list reaches it. The list has room for
// entries::CAPACITY words. The working maps are as long as the map, so that nothing behind it is looked at.
pub fn find(grid: Grid, map: &[u8], disk: usize, list: &mut [u32]) -> Option<usize>
    requires map_value { map_fits (disks grid.size) map.now ≡ true }
    requires disk_value { erasures map.now disk ≡ true }
    requires capacity_in_bounds { capacity ≤ length list.old }
    ensures { Found (layout_of grid.size grid.base) (erasures map.now) disk result list.new }
{
    let mut others = [0u8; tally::DISKS];
    let mut parts = [0u8; tally::STRIPES];
    let mut work = [0u8; tally::DISKS];
    let mut stripes = [0u8; tally::TABLE];
    let mut counts = [0u8; tally::STRIPES];
    find_in(
        grid,
        map,
        disk,
        &mut others[..map.len()],
        &mut parts,
        &mut work[..map.len()],
        &mut stripes,
        &mut counts,
        list,
    )
}
