// A list of repairs from elsewhere, judged on the working map: nothing is repaired here.
#![tactic(auto)]

ghost use Rattle.std.specs.Prelude.{◌≡◌, true, ◌*◌, ◌≤◌, length};
ghost use Rattle.stripes.specs.Erased.{erasures};
ghost use Rattle.stripes.specs.Sectors.{at_position};
ghost use Rattle.stripes.specs.Repair.{allowed as Repair·allowed, all_allowed, clears as Repair·clears};
ghost use Rattle.model.specs.Grid.{layout_of};
ghost use Rattle.layout.specs.Stripe.{stripe_limit};
ghost use Rattle.entries.specs.Listed.{listed};
ghost use Rattle.tally.specs.Tally.{Tallied};
ghost use Rattle.tally.specs.Column.{Positioned, Located};

use layout::stripe::Grid;

// The disk can be repaired by the stripe: it is erased, the stripe is one of its two, and it is the only erased disk there.
fn allowed(
    grid: Grid,
    work: &[u8],
    stripes: &[u8],
    counts: &[u8],
    disk: usize,
    stripe: usize,
) -> bool
    requires tallied { Tallied (layout_of grid.size grid.base) work.now stripes.now counts.now }
    ensures { result ≡ Repair·allowed (layout_of grid.size grid.base) (erasures work.now) disk stripe }
{
    if work.len() <= disk {
        return false;
    }
    if work[disk] != 1 {
        return false;
    }
    let pair = tally::table::stripes_of(grid, work, stripes, disk);
    let low = pair.low;
    if stripe == low {
        return counts[low] == 1;
    }
    let high = pair.high;
    if stripe == high {
        return counts[high] == 1;
    }
    false
}

// Each of the first `count` entries of a list is a repair that is allowed at its step.
fn all_allowed(
    grid: Grid,
    list: &[u32],
    count: usize,
    work: &mut [u8],
    stripes: &[u8],
    counts: &mut [u8],
) -> bool
    requires tallied { Tallied (layout_of grid.size grid.base) work.old stripes.now counts.old }
    requires count_in_bounds { count ≤ length list.now }
    ensures { result ≡ all_allowed (layout_of grid.size grid.base) (erasures work.old) (listed list.now count) }
{
    for k in 0..count {
        let disk = entries::disk_of(list, k);
        let stripe = entries::stripe_of(list, k);
        if !allowed(grid, work, stripes, counts, disk, stripe) {
            return false;
        }
        tally::take::take(grid, work, stripes, counts, disk);
    }
    true
}

// `clears` in memory that is lent. What it held does not matter.
fn clears_in(
    grid: Grid,
    map: &[u8],
    sectors: usize,
    position: usize,
    list: &[u32],
    count: usize,
    work: &mut [u8],
    stripes: &mut [u8],
    counts: &mut [u8],
) -> bool
    requires located { Located grid.size sectors position map.now work.old }
    requires count_in_bounds { count ≤ length list.now }
    requires work_in_bounds { 2 * length work.old ≤ length stripes.old }
    requires stripe_limit_in_bounds { stripe_limit ≤ length counts.old }
    ensures { result
        ≡ Repair·clears (layout_of grid.size grid.base) (at_position sectors position (erasures map.now))
        (listed list.now count) }
{
    tally::load::load_position(grid.size, map, sectors, position, work);
    let erased = tally::load::tally(grid, work, stripes, counts);
    if !all_allowed(grid, list, count, work, stripes, counts) {
        return false;
    }
    count == erased
}

// Besides, no disk is left erased after them, which is so if they are as many as the erased disks: those of one position of a map with
// `sectors` bytes for each disk. The working map has a byte for each disk, so that nothing behind it is looked at.
pub fn clears(
    grid: Grid,
    map: &[u8],
    sectors: usize,
    position: usize,
    list: &[u32],
    count: usize,
) -> bool
    requires positioned { Positioned grid.size sectors position map.now }
    requires count_in_bounds { count ≤ length list.now }
    ensures { result
        ≡ Repair·clears (layout_of grid.size grid.base) (at_position sectors position (erasures map.now))
        (listed list.now count) }
{
    let mut work = [0u8; tally::DISKS];
    let mut stripes = [0u8; tally::TABLE];
    let mut counts = [0u8; tally::STRIPES];
    let disks = layout::disks(grid.size);
    clears_in(
        grid,
        map,
        sectors,
        position,
        list,
        count,
        &mut work[..disks],
        &mut stripes,
        &mut counts,
    )
}
