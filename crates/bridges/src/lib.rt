// How many erased disks the survivors do not determine, told by the table of neighbours. The stripes are reached one after the other: one that begins
// a part, and then all that erased disks lead to. A stripe that is reached over a disk is a link, and the way of a stripe is the set of the links
// from the beginning of its part to it. Every other disk closes a cycle with the links that only one of its two stripes has on its way. The disk
// of a link on no such cycle, a bridge, is determined, and all other disks are not.
#![tactic(auto)]

ghost use Rattle.std.specs.Prelude.{◌≡◌, true, false, ◌||◌, ℕ, ◌<◌, eqb, length};
ghost use Rattle.stripes.specs.Fold.{count};
ghost use Rattle.stripes.specs.Erased.{erasures};
ghost use Rattle.stripes.specs.Undetermined.{lost};
ghost use Rattle.model.specs.Grid.{layout_of, disks};
ghost use Rattle.reach.specs.Reached.{has as Reached·has, word_stripes};
ghost use Rattle.neighbours.specs.Near.{Near};
ghost use Rattle.bridges.specs.Forest.{Grown, Growing, Beside, on_one};

use layout::stripe::Grid;

// The stripes that are reached, those of them that are links, and the links that are closed: on a cycle.
#[derive(Clone, Copy)]
struct Reached {
    seen: u64,
    links: u64,
    closed: u64,
}

// The links that just one of two ways has: the way given and that of a stripe of a set, for each of them.
fn closing(ways: &[u64], way: u64, set: u64) -> u64
    requires { length ways.now ≡ word_stripes }
    ensures { (t : ℕ) → Reached·has result t ≡ on_one ways.now way set t }
{
    let mut all = 0;
    for s in reach::members_of(set) {
        all |= way ^ ways[s];
    }
    all
}

// One stripe more is reached, over the disk from the lowest of its neighbours that are. Those to the others close links. The grid and the map say
// only of what the contract speaks.
fn reach_one(
    grid: Grid,
    work: &[u8],
    near: &[u64],
    ways: &mut [u64],
    before: Reached,
    stripe: usize,
) -> Reached
    requires near { Near (layout_of grid.size grid.base) (erasures work.now) near.now }
    requires growing_2 { Growing (layout_of grid.size grid.base) (erasures work.now) before.seen before.links before.closed ways.old }
    requires stripe_lt_word_stripes { stripe < word_stripes }
    requires beside { Beside (layout_of grid.size grid.base) (erasures work.now) before.seen stripe }
    ensures growing { Growing (layout_of grid.size grid.base) (erasures work.now) result.seen result.links result.closed ways.new }
    ensures seen { (t : ℕ) → Reached·has result.seen t ≡ (Reached·has before.seen t || eqb t stripe) }
{
    let back = near[stripe] & before.seen;
    let from = back.trailing_zeros() as usize;
    let own = reach::one(stripe);
    let way = ways[from] | own;
    let closed = closing(ways, way, back & (back - 1));
    ways[stripe] = way;
    Reached {
        seen: before.seen | own,
        links: before.links | own,
        closed: before.closed | closed,
    }
}

// A part is reached, from the stripe that begins it on: the lowest stripe to which a disk leads comes next, until there is none.
fn reach_part(
    grid: Grid,
    work: &[u8],
    near: &[u64],
    ways: &mut [u64],
    before: Reached,
    stripe: usize,
) -> Reached
    requires near { Near (layout_of grid.size grid.base) (erasures work.now) near.now }
    requires grown_2 { Grown (layout_of grid.size grid.base) (erasures work.now) before.seen before.links before.closed ways.old }
    requires stripe_lt_word_stripes { stripe < word_stripes }
    requires stripe_value { Reached·has before.seen stripe ≡ false }
    ensures grown { Grown (layout_of grid.size grid.base) (erasures work.now) result.seen result.links result.closed ways.new }
    ensures own { Reached·has result.seen stripe ≡ true }
    ensures others { (t : ℕ) → Reached·has before.seen t ≡ true → Reached·has result.seen t ≡ true }
{
    ways[stripe] = 0;
    let mut done = Reached {
        seen: before.seen | reach::one(stripe),
        links: before.links,
        closed: before.closed,
    };
    let mut ahead = near[stripe];
    // Each turn puts stripes into what is ahead, so that no iterator goes over it.
    while ahead != 0 {
        let next = ahead.trailing_zeros() as usize;
        done = reach_one(grid, work, near, ways, done, next);
        ahead = (ahead | near[next] | done.seen) ^ done.seen;
    }
    done
}

// All stripes are reached, part by part. What the table of ways held does not matter.
fn reach_all(grid: Grid, work: &[u8], near: &[u64], ways: &mut [u64]) -> Reached
    requires near { Near (layout_of grid.size grid.base) (erasures work.now) near.now }
    requires ways_len { length ways.old ≡ word_stripes }
    ensures grown { Grown (layout_of grid.size grid.base) (erasures work.now) result.seen result.links result.closed ways.new }
    ensures all { (s : ℕ) → s < (layout_of grid.size grid.base).stripe_bound → Reached·has result.seen s ≡ true }
{
    let mut done = Reached {
        seen: 0,
        links: 0,
        closed: 0,
    };
    for s in 0..grid.bound() {
        if !reach::has(done.seen, s) {
            done = reach_part(grid, work, near, ways, done, s);
        }
    }
    done
}

// How many stripes a set has.
fn members(set: u64) -> usize
    ensures { result ≡ count word_stripes (Reached·has set) }
{
    set.count_ones() as usize
}

// How many of the erased disks, of which there are `erased`, the survivors do not determine.
pub fn undetermined_count(grid: Grid, work: &[u8], near: &[u64], erased: usize) -> usize
    requires near { Near (layout_of grid.size grid.base) (erasures work.now) near.now }
    requires erased_value { erased ≡ count (disks grid.size) (erasures work.now) }
    ensures { result ≡ lost (layout_of grid.size grid.base) (erasures work.now) }
{
    let mut ways = [0u64; reach::STRIPES];
    let all = reach_all(grid, work, near, &mut ways);
    let links = all.links;
    let closed = all.closed;
    erased - members((links | closed) ^ closed)
}
