// The two halves of a seal.
ghost use Rattle.std.specs.Prelude.{◌≡◌};
ghost use Rattle.model.specs.Grid.{rows};
ghost use Rattle.model.specs.Array.{seal_status};
ghost use Rattle.seal.specs.Parity.{rows_filled, last_row_filled};

use model::Size;

// The row parity of each data row.
pub fn fill_rows(size: Size, block: usize, array: &mut [u8])
    requires { seal_status size block array.old ≡ 0 }
    ensures { array.new ≡ rows_filled size block array.old (rows size) }
{
    let across = layout::across(size);
    let last = layout::columns(size);
    let row_bytes = across * block;
    for row in 0..layout::rows(size) {
        xor::fill::fill(array, row * row_bytes, block, across, last, block);
    }
}

// The column parities and the superparity, all at once: the last row of the grid is the sum of the other rows.
pub fn fill_last_row(size: Size, block: usize, array: &mut [u8])
    requires { seal_status size block array.old ≡ 0 }
    ensures { array.new ≡ last_row_filled size block array.old }
{
    let last = layout::rows(size);
    let down = layout::down(size);
    let row_bytes = layout::across(size) * block;
    xor::fill::fill(array, 0, row_bytes, down, last, row_bytes);
}
