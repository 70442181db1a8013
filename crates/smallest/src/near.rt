// The disks of the table of neighbours that lead out of a set of stripes: their stripes, and the table without them.
ghost use Rattle.std.specs.Prelude.{◌≡◌, ℕ, ◌<◌, length};
ghost use Rattle.reach.specs.Reached.{has as Reached·has, word_stripes};
ghost use Rattle.smallest.specs.Leads.{side_of, cut_table, leaving_of, on_crossing};

use layout::stripe::Pair;

// Those stripes of a word that are in a set, or those that are not.
fn side(word: u64, inside: u64, here: bool) -> u64
    ensures { result ≡ side_of word inside here }
{
    if here {
        return word & inside;
    }
    (word | inside) ^ inside
}

// The stripes outside a set that stripe s of the set leads to, and if there are any, s itself.
fn leaving(word: u64, inside: u64, s: usize) -> u64
    requires { s < word_stripes }
    ensures { result ≡ leaving_of word inside s }
{
    let out = side(word, inside, false);
    if out == 0 {
        return 0;
    }
    reach::one(s) | out
}

// The stripes of the disks that have just one stripe in a set.
pub fn crossing(near: &[u64], inside: u64) -> u64
    requires { length near.now ≡ word_stripes }
    ensures { (y : ℕ) → Reached·has result y ≡ on_crossing near.now inside y }
{
    let mut found = 0;
    for s in reach::members_of(inside) {
        found |= leaving(near[s], inside, s);
    }
    found
}

// Of the disks that have just one stripe in a set, the one on the two stripes alone is kept: first all of them are taken out, then that one is
// put in again.
pub fn cut(near: &mut [u64], inside: u64, pair: Pair)
    requires near_len { length near.old ≡ word_stripes }
    requires low_lt_word_stripes { pair.low < word_stripes }
    requires high_lt_word_stripes { pair.high < word_stripes }
    ensures { near.new ≡ cut_table near.old inside pair.low pair.high }
{
    for s in 0..reach::STRIPES {
        near[s] = side(near[s], inside, reach::has(inside, s));
    }
    neighbours::toggle(near, pair);
}
