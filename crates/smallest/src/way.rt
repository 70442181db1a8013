// The shortest ways between two stripes over the disks of the table of neighbours: which disks are on one, and what is left of them where one disk
// is chosen. How many disks lead from the one stripe to each is in the first 64 places of the table of levels, and from the other in the next 64.
ghost use Rattle.std.specs.Prelude.{◌≡◌, ◌<◌, length};
ghost use Rattle.reach.specs.Reached.{word_stripes};
ghost use Rattle.smallest.specs.Ways.{level_in, Levelled, Narrowed};

use layout::stripe::Pair;

// The number of disks before a disk on a shortest way of `others` disks, or `others` where it is on none or not in the table of
// neighbours, as `level_in` has it.
pub fn level_of(near: &[u64], levels: &[u8], pair: Pair, others: usize) -> usize
    requires near_len { length near.now ≡ word_stripes }
    requires levels_len { length levels.now ≡ 128 }
    requires low_lt_word_stripes { pair.low < word_stripes }
    requires high_lt_word_stripes { pair.high < word_stripes }
    ensures { result ≡ level_in near.now levels.now pair.low pair.high others }
{
    let low = pair.low;
    let high = pair.high;
    if !reach::has(near[low], high) {
        return others;
    }
    let here = usize::from(levels[low]);
    if here + 1 + usize::from(levels[reach::STRIPES + high]) <= others {
        return here;
    }
    let there = usize::from(levels[high]);
    if there + 1 + usize::from(levels[reach::STRIPES + low]) <= others {
        return there;
    }
    others
}

// The levels from the two stripes of `ends`, over the disks of the table of neighbours.
pub fn measure(near: &[u64], ends: Pair, others: usize, levels: &mut [u8])
    requires near_len { length near.now ≡ word_stripes }
    requires low_lt_word_stripes { ends.low < word_stripes }
    requires high_lt_word_stripes { ends.high < word_stripes }
    requires others_lt_word_stripes { others < word_stripes }
    requires levels_len { length levels.old ≡ 128 }
    ensures { Levelled near.now ends.low ends.high others levels.new }
{
    reach::levels(near, ends.low, others, &mut levels[..reach::STRIPES]);
    reach::levels(near, ends.high, others, &mut levels[reach::STRIPES..]);
}

// A disk is chosen: of the disks that lead on from its level it alone stays in the table of neighbours, and the levels are measured again.
// Where there is no other, nothing changes.
pub fn narrow(
    near: &mut [u64],
    levels: &mut [u8],
    ends: Pair,
    others: usize,
    pair: Pair,
    level: usize,
)
    requires near_len { length near.old ≡ word_stripes }
    requires levelled { Levelled near.old ends.low ends.high others levels.old }
    requires low_lt_word_stripes { ends.low < word_stripes }
    requires high_lt_word_stripes { ends.high < word_stripes }
    requires low_lt_word_stripes_2 { pair.low < word_stripes }
    requires high_lt_word_stripes_2 { pair.high < word_stripes }
    requires others_lt_word_stripes { others < word_stripes }
    requires level_lt_others { level < others }
    ensures cut { Narrowed near.old ends.low level pair.low pair.high near.new }
    ensures levels { Levelled near.new ends.low ends.high others levels.new }
{
    let inside = reach::ball(near, ends.low, level);
    if crate::near::crossing(near, inside) == (reach::one(pair.low) | reach::one(pair.high)) {
        return;
    }
    crate::near::cut(near, inside, pair);
    measure(near, ends, others, levels);
}
