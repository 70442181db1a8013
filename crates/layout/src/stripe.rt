// The stripes of a disk, and the disks of a stripe. Column c is stripe base + c.
ghost use Rattle.std.specs.Prelude.{◌≡◌, true, [], ◌∷◌, ◌<◌};
ghost use Rattle.stripes.specs.System.{other_than};
ghost use Rattle.model.specs.Grid.{layout_of, disks};
ghost use Rattle.layout.specs.Stripe.{Numbered, has_disks, run_disk, disks_on, place_on};

use model::Size;

// The stripe of column 0 where no sheet gives it: column c is stripe COLUMN_BASE + c in what check answers.
pub const COLUMN_BASE: usize = 16;

// A grid of disks with its stripes numbered: the rows from 0 on, the columns from `base` on.
#[derive(Clone, Copy)]
pub struct Grid {
    pub size: Size,
    pub base: usize,
    ghost numbered: { Numbered size base },
}

// The two stripes of a disk.
#[derive(Clone, Copy)]
pub struct Pair {
    pub low: usize,
    pub high: usize,
}

// `count` disks that stand `step` apart from disk `first` on.
#[derive(Clone, Copy)]
pub struct Run {
    pub first: usize,
    pub step: usize,
    pub count: usize,
}

impl Grid {
    // The two stripes of a disk.
    pub fn stripes_of(self, disk: usize) -> Pair
        requires disk_bound { disk < disks self.size }
        ensures { (layout_of self.size self.base).through disk ≡ result.low ∷ result.high ∷ [] }
    {
        let across = crate::across(self.size);
        Pair {
            low: disk / across,
            high: self.base + disk % across,
        }
    }

    // One number more than the highest stripe.
    pub fn bound(self) -> usize
        ensures { result ≡ (layout_of self.size self.base).stripe_bound }
    {
        self.base + crate::across(self.size)
    }

    // Some disk lies on the stripe: it is a row or a column. From the last row to the base, and from the bound on, there are numbers of
    // no stripe.
    pub fn has_disks(self, stripe: usize) -> bool
        ensures { result ≡ has_disks self.size self.base stripe }
    {
        let across = crate::across(self.size);
        let down = crate::down(self.size);
        if stripe < self.base {
            return stripe < down;
        }
        stripe - self.base < across
    }

    // The disks of a stripe.
    pub fn disks_on(self, stripe: usize) -> Run
        ensures { result ≡ disks_on self.size self.base stripe }
    {
        let across = crate::across(self.size);
        let down = crate::down(self.size);
        if stripe < self.base {
            return Run {
                first: stripe * across,
                step: 1,
                count: across,
            };
        }
        Run {
            first: stripe - self.base,
            step: across,
            count: down,
        }
    }

    // Which of the disks of its stripe a disk is.
    pub fn place_on(self, disk: usize, stripe: usize) -> usize
        ensures { result ≡ place_on self.size self.base disk stripe }
    {
        let across = crate::across(self.size);
        if stripe < self.base {
            return disk % across;
        }
        disk / across
    }

    // The other stripe of disk number k of a stripe.
    pub fn other_at(self, stripe: usize, k: usize) -> usize
        requires stripe_value { has_disks self.size self.base stripe ≡ true }
        requires k_bound { k < (disks_on self.size self.base stripe).count }
        ensures { result ≡ other_than stripe ((layout_of self.size self.base).through (run_disk (disks_on self.size self.base stripe) k)) }
    {
        if stripe < self.base {
            return self.base + k;
        }
        k
    }
}
