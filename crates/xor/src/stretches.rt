// Where the stretches stand that are summed: evenly spaced, or at the numbers of a list.
ghost use Rattle.std.specs.Prelude.{◌≡◌, ◌+◌, ◌<◌, ◌^◌, length};
ghost use Rattle.xor.specs.Spots.{Spots, spaced_spots, picked_spots};

pub(crate) trait Stretches: Copy {
    // How many there are, where each starts and which are taken.
    ghost spots: { Self → Spots };

    fn count(self) -> usize
        ensures { result ≡ (spots self).count };

    // Number k is part of the sum.
    fn takes(self, k: usize) -> bool
        ensures { result ≡ (spots self).taken k };

    // Where number k starts, if the first place is `first`.
    fn start(self, first: usize, k: usize) -> usize
        requires listed { k < (spots self).count }
        requires bound { first + (spots self).start k < 2 ^ 64 }
        ensures { result ≡ first + (spots self).start k };
}

// `count` stretches that stand `step` apart, of which number `skip` is left out.
#[derive(Clone, Copy)]
pub(crate) struct Strided {
    pub(crate) step: usize,
    pub(crate) count: usize,
    pub(crate) skip: usize,
}

impl Stretches for Strided {
    ghost spots = { λ s. spaced_spots s.step s.count s.skip };

    fn count(self) -> usize {
        self.count
    }

    fn takes(self, k: usize) -> bool {
        k != self.skip
    }

    fn start(self, first: usize, k: usize) -> usize {
        first + k * self.step
    }
}

// A stretch for each number of the list, that many steps from the first on.
#[derive(Clone, Copy)]
pub(crate) struct Picked<'a> {
    pub(crate) step: usize,
    pub(crate) list: &'a [u16],
}

impl<'a> Stretches for Picked<'a> {
    ghost spots = { λ s. picked_spots s.step s.list.now };

    fn count(self) -> usize {
        self.list.len()
    }

    fn takes(self, _k: usize) -> bool {
        true
    }

    fn start(self, first: usize, k: usize) -> usize {
        first + self.list[k] as usize * self.step
    }
}
