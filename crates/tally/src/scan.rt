// The erased disks of a map, one after the other.
ghost use Rattle.std.specs.Prelude.{◌≡◌, ◌-◌, ◌≤◌, length};
ghost use Rattle.std.specs.Iterator.{at_most};
ghost use Rattle.tally.specs.Tally.{next_erased, Passed, Steps};

// Bytes that are passed over at once.
const CHUNK: usize = 16;

// Passes over bytes from `from` on that are all zero, a chunk at a time.
fn pass_zeros(map: &[u8], from: usize) -> usize
    requires { from ≤ length map.now }
    ensures { Passed map.now from result }
{
    let mut d = from;
    // A while, since the answer is the place reached, also where the last bytes are too few for a chunk.
    while CHUNK <= map.len() - d {
        if !zeros::all_zero16(map, d) {
            return d;
        }
        d += CHUNK;
    }
    d
}

// The lowest erased disk from `from` on, or the length where there is none, as its definition has it. Where many disks are erased
// it is often the first one looked at.
pub fn next_erased(map: &[u8], from: usize) -> usize
    ensures { result ≡ next_erased map.now from }
{
    if map.len() <= from {
        return map.len();
    }
    if map[from] == 1 {
        return from;
    }
    for d in pass_zeros(map, from)..map.len() {
        if map[d] == 1 {
            return d;
        }
    }
    map.len()
}

// The erased disks of a map, lowest first: those from `from` on are still to come.
#[derive(Clone, Copy)]
pub struct Scan<'a> {
    pub map: &'a [u8],
    pub from: usize,
    ghost within: { from ≤ length map.now },
}

// All erased disks of a map.
#[inline(always)]
pub fn erased(map: &[u8]) -> Scan<'_>
    ensures map { result.map.now ≡ map.now }
    ensures start { result.from ≡ 0 }
{
    Scan { map, from: 0 }
}

impl<'a> Iterator for Scan<'a> {
    type Item = usize;

    ghost next_gives = { λ s r t. (t.map.now ≡ s.map.now) × Steps s.map.now s.from r t.from };

    ghost remaining = { λ s. at_most (length s.map.now - s.from) };

    // A call for each disk would cost plan a tenth.
    #[inline(always)]
    fn next(&mut self) -> Option<usize> {
        let d = next_erased(self.map, self.from);
        if self.map.len() <= d {
            return None;
        }
        self.from = d + 1;
        Some(d)
    }
}
