// Loading: a map is copied, and its erased disks are counted on their stripes.
ghost use Rattle.std.specs.Prelude.{◌≡◌, false, ℕ, ◌*◌, ◌≤◌, length};
ghost use Rattle.stripes.specs.Fold.{count};
ghost use Rattle.stripes.specs.Erased.{erasures};
ghost use Rattle.stripes.specs.Sectors.{at_position};
ghost use Rattle.model.specs.Grid.{disks, layout_of};
ghost use Rattle.layout.specs.Stripe.{stripe_limit};
ghost use Rattle.tally.specs.Tally.{Tallied};
ghost use Rattle.tally.specs.Column.{column_of, Located};

use layout::stripe::Grid;
use model::Size;

// `work` becomes a map, with zeros behind it. A loop, since `copy_from_slice` would have every host bring `memmove`.
pub fn copy(map: &[u8], work: &mut [u8])
    requires { length map.now ≤ length work.old }
    ensures { erasures work.new ≡ erasures map.now }
{
    for d in 0..map.len() {
        work[d] = map[d];
    }
    zeros::wipe(work, map.len(), work.len() - map.len());
}

// `work` becomes the bytes of one position of a map that has `sectors` bytes for each disk. The size says only of what the contract speaks.
pub fn gather(size: Size, map: &[u8], sectors: usize, position: usize, work: &mut [u8])
    requires { Located size sectors position map.now work.old }
    ensures { work.new ≡ column_of (disks size) sectors position map.now }
{
    for d in 0..work.len() {
        work[d] = map[d * sectors + position];
    }
}

// The same, of which only the erased disks are spoken. The map of a block without sectors is copied as it is.
pub fn load_position(size: Size, map: &[u8], sectors: usize, position: usize, work: &mut [u8])
    requires { Located size sectors position map.now work.old }
    ensures { erasures work.new ≡ at_position sectors position (erasures map.now) }
{
    if sectors == 1 {
        copy(map, work);
    } else {
        gather(size, map, sectors, position, work);
    }
}

// Writes the stripes of each erased disk into the table, counts the erased disks on every stripe, and says how many they are.
// What the table and the counts held before does not matter.
pub fn tally(grid: Grid, work: &[u8], stripes: &mut [u8], counts: &mut [u8]) -> usize
    requires size_in_bounds { disks grid.size ≤ length work.now }
    requires by_index { (d : ℕ) → disks grid.size ≤ d → erasures work.now d ≡ false }
    requires work_in_bounds { 2 * length work.now ≤ length stripes.old }
    requires stripe_limit_in_bounds { stripe_limit ≤ length counts.old }
    ensures number { result ≡ count (disks grid.size) (erasures work.now) }
    ensures tallied { Tallied (layout_of grid.size grid.base) work.now stripes.new counts.new }
{
    zeros::wipe(counts, 0, counts.len());
    let mut number = 0;
    for d in crate::scan::erased(work) {
        let pair = grid.stripes_of(d);
        crate::table::enter(stripes, d, pair);
        crate::count::raise(counts, pair.low);
        crate::count::raise(counts, pair.high);
        number += 1;
    }
    number
}
