// The table of neighbours: for each stripe the set of the stripes that disks of a set lead to, a word for each.
#![tactic(auto)]

ghost use Rattle.std.specs.Prelude.{◌≡◌, ℕ, ◌<◌, length, get_or};
ghost use Rattle.stripes.specs.Erased.{erasures};
ghost use Rattle.model.specs.Grid.{layout_of};
ghost use Rattle.tally.specs.Tally.{Table};
ghost use Rattle.reach.specs.Reached.{word_stripes};
ghost use Rattle.neighbours.specs.Near.{Near, toggled};

use layout::stripe::{Grid, Pair};

// No disk leads from any stripe.
fn clear(near: &mut [u64])
    requires { length near.old ≡ word_stripes }
    ensures { (s : ℕ) → s < word_stripes → get_or near.new s 0 ≡ 0 }
{
    near.fill(0);
}

// A disk on the two stripes is put into the set, or taken out.
pub fn toggle(near: &mut [u64], pair: Pair)
    requires near_len { length near.old ≡ word_stripes }
    requires low_lt_word_stripes { pair.low < word_stripes }
    requires high_lt_word_stripes { pair.high < word_stripes }
    ensures { near.new ≡ toggled near.old pair.low pair.high }
{
    let low = pair.low;
    let high = pair.high;
    near[low] = near[low] ^ reach::one(high);
    near[high] = near[high] ^ reach::one(low);
}

// The table becomes that of all erased disks. What it held does not matter.
pub fn load(grid: Grid, work: &[u8], stripes: &[u8], near: &mut [u64])
    requires table { Table (layout_of grid.size grid.base) work.now stripes.now }
    requires near_len { length near.old ≡ word_stripes }
    ensures { Near (layout_of grid.size grid.base) (erasures work.now) near.new }
{
    clear(near);
    for d in tally::scan::erased(work) {
        let pair = tally::table::stripes_of(grid, work, stripes, d);
        toggle(near, pair);
    }
}
