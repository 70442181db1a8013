// How many disks an array of a size has and how long it is, 0 for numbers that the calls refuse.
#![tactic(auto)]

ghost use Rattle.std.specs.Prelude.{◌≡◌};
ghost use Rattle.model.specs.Grid.{disks_or_zero, array_bytes_or_zero};

use model::Size;

// Disks of an array.
pub fn disks(size: Size) -> usize
    ensures { result ≡ disks_or_zero size }
{
    if refusal::size_fits(size) {
        return layout::disks(size);
    }
    0
}

// Bytes of an array with blocks of this length.
pub fn array_bytes(size: Size, block: usize) -> usize
    ensures { result ≡ array_bytes_or_zero size block }
{
    if !refusal::size_fits(size) {
        return 0;
    }
    if !refusal::block_fits(block) {
        return 0;
    }
    layout::array_bytes(size, block)
}
