// Check: tests whether an array is sealed. In the field's words, a scrub.
#![tactic(auto)]

ghost use Rattle.std.specs.Prelude.{◌≡◌};
ghost use Rattle.model.specs.Array.{checked};
ghost use Rattle.model.specs.Answers.{checked_of};

use layout::stripe::{COLUMN_BASE, Grid};
use model::Size;
use refusal::Refusal;
use stripes::Stretch;

// Tests the sum of every stripe, rows first: the lowest whose sum is not zero, if there is one.
pub fn check(size: Size, block: usize, array: &[u8]) -> Result<Option<usize>, Refusal>
    ensures { checked_of result ≡ checked size block array.now }
{
    refusal::test_array(size, block, array.len())?;
    let all = Stretch {
        block,
        offset: 0,
        width: block,
    };
    let grid = Grid {
        size,
        base: COLUMN_BASE,
    };
    let lowest = sums::nonzero::lowest_nonzero(grid, all, array);
    if lowest < grid.bound() {
        return Ok(Some(lowest));
    }
    Ok(None)
}
