// Seal: fills the parities. A refusal leaves the array as it was.
#![tactic(auto)]

ghost use Rattle.std.specs.Prelude.{◌≡◌};
ghost use Rattle.model.specs.Array.{seal_status, seal_array};
ghost use Rattle.model.specs.Answers.{status_of};

use model::Size;
use refusal::Refusal;

mod parity;

// Fills the parities.
pub fn seal(size: Size, block: usize, array: &mut [u8]) -> Result<(), Refusal>
    ensures status { status_of result ≡ seal_status size block array.old }
    ensures array { array.new ≡ seal_array size block array.old }
{
    refusal::test_array(size, block, array.len())?;
    parity::fill_rows(size, block, array);
    parity::fill_last_row(size, block, array);
    Ok(())
}
