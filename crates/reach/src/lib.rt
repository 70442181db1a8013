// The stripes that are reached from one of them step by step. A set of stripes is a word, a binary digit for each; a table of 64 words has
// for each stripe the set of those next to it.
#![tactic(auto)]

ghost use Rattle.std.specs.Prelude.{◌≡◌, ◌&&◌, not, cond, ℕ, ◌+◌, ◌^◌, ◌≤◌, ◌<◌, length, get_or};
ghost use Rattle.std.specs.Iterator.{at_most};
ghost use Rattle.reach.specs.Members.{Takes};
ghost use Rattle.reach.specs.Reached.{has as Reached·has, some, reached, next_in, steps_to, word_stripes};

// The stripes that a word, and a table of words, has room for.
pub const STRIPES: usize = 64;

// The set of one stripe.
pub fn one(stripe: usize) -> u64
    requires { stripe < word_stripes }
    ensures { result ≡ 2 ^ stripe }
{
    1u64 << stripe
}

// Says whether a set has a stripe.
pub fn has(set: u64, stripe: usize) -> bool
    requires { stripe < word_stripes }
    ensures { result ≡ Reached·has set stripe }
{
    (set >> stripe) % 2 == 1
}

// The stripes of a set, one after another. Digits that are 0 are passed over at once.
#[derive(Drop)]
pub struct Members {
    left: u64,
}

impl Iterator for Members {
    type Item = usize;

    ghost next_gives = { λ s r t. Takes s.left r t.left };

    ghost remaining = { λ s. at_most s.left };

    fn next(&mut self) -> Option<usize> {
        if self.left == 0 {
            return None;
        }
        let stripe = self.left.trailing_zeros() as usize;
        self.left &= self.left - 1;
        Some(stripe)
    }
}

// Goes over the stripes of a set.
pub fn members_of(set: u64) -> Members
    ensures { result.left ≡ set }
{
    Members { left: set }
}

// The stripes next to those of a set.
fn neighbours(near: &[u64], set: u64) -> u64
    requires { word_stripes ≤ length near.now }
    ensures { (t : ℕ) → Reached·has result t ≡ some word_stripes (λ s. Reached·has set s && next_in near.now s t) }
{
    let mut all = 0;
    for s in members_of(set) {
        all |= near[s];
    }
    all
}

// Those of them that are not seen yet.
fn fresh(near: &[u64], front: u64, seen: u64) -> u64
    requires { word_stripes ≤ length near.now }
    ensures { (t : ℕ) →
        Reached·has result t ≡ (some word_stripes (λ s. Reached·has front s && next_in near.now s t) && not (Reached·has seen t)) }
{
    (neighbours(near, front) | seen) ^ seen
}

// How many steps lead from one stripe to another, or limit + 1 where `limit` steps are not enough, as `steps_to` has it. Only
// the stripes that the last step found are gone on from.
pub fn distance(near: &[u64], from: usize, to: usize, limit: usize) -> usize
    requires word_stripes_in_bounds { word_stripes ≤ length near.now }
    requires from_lt_word_stripes { from < word_stripes }
    requires to_lt_word_stripes { to < word_stripes }
    requires limit_lt_word_stripes { limit < word_stripes }
    ensures { result ≡ steps_to (next_in near.now) word_stripes from limit to }
{
    if from == to {
        return 0;
    }
    let mut seen = one(from);
    let mut front = seen;
    for k in 0..limit {
        front = fresh(near, front, seen);
        if front == 0 {
            return limit + 1;
        }
        if has(front, to) {
            return k + 1;
        }
        seen |= front;
    }
    limit + 1
}

// The set of the stripes that at most `steps` steps lead to. It is done as soon as a step finds nothing.
pub fn ball(near: &[u64], from: usize, steps: usize) -> u64
    requires word_stripes_in_bounds { word_stripes ≤ length near.now }
    requires from_lt_word_stripes { from < word_stripes }
    requires steps_lt_word_stripes { steps < word_stripes }
    ensures { (t : ℕ) → Reached·has result t ≡ reached (next_in near.now) word_stripes from steps t }
{
    let mut inside = one(from);
    let mut front = inside;
    for _taken in 0..steps {
        front = fresh(near, front, inside);
        if front == 0 {
            return inside;
        }
        inside |= front;
    }
    inside
}

// The stripes of a set get a level.
fn mark(levels: &mut [u8], set: u64, level: u8)
    requires { length levels.old ≡ word_stripes }
    ensures { (t : ℕ) → get_or levels.new t 0 ≡ cond (Reached·has set t) level (get_or levels.old t 0) }
{
    for s in members_of(set) {
        levels[s] = level;
    }
}

// `levels` becomes the table of how many steps lead from one stripe to each, limit + 1 where `limit` steps are not enough, as `steps_to` has
// it. What it held does not matter.
pub fn levels(near: &[u64], from: usize, limit: usize, levels: &mut [u8])
    requires word_stripes_in_bounds { word_stripes ≤ length near.now }
    requires from_lt_word_stripes { from < word_stripes }
    requires limit_lt_word_stripes { limit < word_stripes }
    requires levels_len { length levels.old ≡ word_stripes }
    ensures { (t : ℕ) → t < word_stripes →
        get_or levels.new t 0 ≡ steps_to (next_in near.now) word_stripes from limit t }
{
    levels.fill(limit as u8 + 1);
    levels[from] = 0;
    let mut done = one(from);
    let mut front = done;
    for level in 0..limit {
        front = fresh(near, front, done);
        if front == 0 {
            return;
        }
        mark(levels, front, level as u8 + 1);
        done |= front;
    }
}
