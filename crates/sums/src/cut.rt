// The sum of the survivors of which just one stripe is in a part of the stripes: a test of it, and an erased disk that becomes it.
// A table gives each stripe the name of its part, and a map has 1 for each erased disk. Such a survivor is met on its one stripe
// in the part.
ghost use Rattle.std.specs.Prelude.{◌≡◌, true, not, cond, ◌&&◌, ◌+◌, ◌≤◌, ◌<◌, eqb, length};
ghost use Rattle.stripes.specs.Fold.{every};
ghost use Rattle.stripes.specs.System.{byte, changed};
ghost use Rattle.stripes.specs.Erased.{erasures};
ghost use Rattle.model.specs.Grid.{layout_of, disks};
ghost use Rattle.sums.specs.Held.{Held};
ghost use Rattle.sums.specs.Cut.{in_part, cut_over, cut_sum, cut_on, Survivors, Listed, AddedBy};

use layout::stripe::Grid;
use stripes::Stretch;

// The disk is a survivor, and this other stripe of it is not in the part. The stripe is asked first: where many disks are lost at random,
// it nearly always tells, and a byte of the map is one that a processor cannot foresee.
fn leaves(map: &[u8], parts: &[u8], name: u8, disk: usize, other: usize) -> bool
    requires disk_in_bounds { disk < length map.now }
    requires other_in_bounds { other < length parts.now }
    ensures { result ≡ (not (erasures map.now disk) && not (in_part parts.now name other)) }
{
    if parts[other] == name {
        return false;
    }
    map[disk] != 1
}

// Lists such survivors on one stripe, behind the `have` numbers of the list, and answers how many there are then. A stripe that is not
// in the part adds none.
fn list_stripe(
    grid: Grid,
    map: &[u8],
    parts: &[u8],
    name: u8,
    stripe: usize,
    list: &mut [u16],
    have: usize,
) -> usize
    requires size_in_bounds { disks grid.size ≤ length map.now }
    requires base_in_bounds { (layout_of grid.size grid.base).stripe_bound ≤ length parts.now }
    requires stripe_bound { stripe < (layout_of grid.size grid.base).stripe_bound }
    requires survivors { Survivors (layout_of grid.size grid.base) (erasures map.now) list.old have }
    requires stripe_in_bounds { have + cut_on (layout_of grid.size grid.base) (erasures map.now) (in_part parts.now name) stripe ≤ length list.old }
    ensures { AddedBy (layout_of grid.size grid.base) (erasures map.now) (in_part parts.now name) stripe list.old have
        list.new result }
{
    if parts[stripe] != name {
        return have;
    }
    if !grid.has_disks(stripe) {
        return have;
    }
    let run = grid.disks_on(stripe);
    let mut n = have;
    for k in 0..run.count {
        let disk = run.first + k * run.step;
        let other = grid.other_at(stripe, k);
        if leaves(map, parts, name, disk, other) {
            list[n] = disk as u16;
            n += 1;
        }
    }
    n
}

// Lists the survivors of which just one stripe is in the part, and answers how many they are.
pub fn list_cut(grid: Grid, map: &[u8], parts: &[u8], name: u8, list: &mut [u16]) -> usize
    requires size_in_bounds { disks grid.size ≤ length map.now }
    requires base_in_bounds { (layout_of grid.size grid.base).stripe_bound ≤ length parts.now }
    requires size_in_bounds_2 { disks grid.size ≤ length list.old }
    ensures { Listed (layout_of grid.size grid.base) (erasures map.now) list.new result (length list.new)
        (cut_over (layout_of grid.size grid.base) (erasures map.now) (in_part parts.now name)) }
{
    let mut n = 0;
    for s in 0..grid.bound() {
        n = list_stripe(grid, map, parts, name, s, list, n);
    }
    n
}

// Their sum is zero at each place of the stretch. The list is room to work in.
pub fn cancels(
    grid: Grid,
    stretch: Stretch,
    array: &[u8],
    map: &[u8],
    parts: &[u8],
    name: u8,
    list: &mut [u16],
) -> bool
    requires held { Held grid.size stretch array.now }
    requires size_in_bounds { disks grid.size ≤ length map.now }
    requires base_in_bounds { (layout_of grid.size grid.base).stripe_bound ≤ length parts.now }
    requires size_in_bounds_2 { disks grid.size ≤ length list.old }
    ensures { result
        ≡ every stretch.width (λ p.
        eqb (cut_sum (layout_of grid.size grid.base) stretch (erasures map.now) (in_part parts.now name) array.now p) 0) }
{
    let count = list_cut(grid, map, parts, name, list);
    xor::picked::cancels(
        array,
        stretch.offset,
        stretch.block,
        list,
        count,
        stretch.width,
    )
}

// The stretch of an erased disk becomes their sum. The list is room to work in.
pub fn fill(
    grid: Grid,
    stretch: Stretch,
    array: &mut [u8],
    map: &[u8],
    parts: &[u8],
    name: u8,
    list: &mut [u16],
    disk: usize,
)
    requires held { Held grid.size stretch array.old }
    requires size_in_bounds { disks grid.size ≤ length map.now }
    requires base_in_bounds { (layout_of grid.size grid.base).stripe_bound ≤ length parts.now }
    requires size_in_bounds_2 { disks grid.size ≤ length list.old }
    requires disk_bound { disk < disks grid.size }
    requires disk_value { erasures map.now disk ≡ true }
    ensures { array.new
        ≡ changed stretch array.old (λ d p.
        cond (eqb d disk)
        (cut_sum (layout_of grid.size grid.base) stretch (erasures map.now) (in_part parts.now name) array.old p)
        (byte stretch array.old d p)) }
{
    let count = list_cut(grid, map, parts, name, list);
    xor::picked::fill(
        array,
        stretch.offset,
        stretch.block,
        list,
        count,
        disk,
        stretch.width,
    );
}
