// Write: a new block on a data disk. A refusal leaves the array as it was.
#![tactic(auto)]

ghost use Rattle.std.specs.Prelude.{◌≡◌};
ghost use Rattle.model.specs.Array.{write_status, write_array};
ghost use Rattle.model.specs.Answers.{status_of};

use model::Size;
use refusal::Refusal;

mod store;

// Stores a new block on a data disk, and adds the difference to its parities.
pub fn write(
    size: Size,
    block: usize,
    array: &mut [u8],
    disk: usize,
    data: &[u8],
) -> Result<(), Refusal>
    ensures status { status_of result ≡ write_status size block array.old disk «data».now }
    ensures array { array.new ≡ write_array size block array.old disk «data».now }
{
    refusal::test_array(size, block, array.len())?;
    if !layout::is_data(size, disk) {
        return Err(Refusal::Disk);
    }
    if data.len() != block {
        return Err(Refusal::Data);
    }
    store::store(size, block, array, disk, data);
    Ok(())
}
