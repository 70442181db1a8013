// What the calls answer: a `Refusal`, where a test of the arguments fails, or else a number, a `Verdict` or nothing.
ghost use Rattle.std.specs.Prelude.{◌≡◌};

// Why a call is refused: the test that is the first to fail. `number` of specs/Answers.antt has the number of each.
#[derive(Clone, Copy, PartialEq, Eq)]
pub enum Refusal {
    // The size is not one that the library takes.
    Size = 1,
    // The block's length is not.
    Block = 2,
    // The array's length is not that of the size and the block.
    Array = 3,
    // The map's length, or a byte of it that is neither 0 nor 1.
    Map = 4,
    // The length of the sheets.
    Sheets = 5,
    // The survivors contradict each other.
    Survivors = 7,
    // The disk holds no data.
    Disk = 8,
    // The length of the new block.
    Data = 9,
    // A sheet of another kind, or a number out of range on its chain.
    Chain = 10,
    // A repair that is not allowed at its step, or a disk left erased.
    Repairs = 11,
    // A turn without repairs.
    Limit = 12,
    // A chain that reaches a record twice.
    Ring = 13,
    // Bytes off the chain.
    Leftovers = 14,
    // The wanted disk is not one of the array, or not erased.
    Wanted = 15,
    // The length of a sector, or the number of sectors in a block.
    Sector = 16,
}

impl Refusal {
    ghost use Rattle.model.specs.Answers.{number};

    // Its number in the C interface.
    #[tactic(auto, unfolding(crate::specs::Answers::number))]
    pub fn number(self) -> u32
        ensures { result ≡ number self }
    {
        self as u32
    }
}

// What plan, the plan for one disk and rebuild find of a loss.
#[derive(Clone, Copy)]
pub enum Verdict {
    // The number of repairs.
    Repairs(usize),
    // The loss is fatal, and no repair reaches the wanted disk, if there is one; the lowest position at which it is fatal, and the number of
    // undetermined disks there (paper 02: lost cards). Without sectors there is one position, 0.
    Fatal { lost: usize, position: usize },
}
