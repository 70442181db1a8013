// Numbers only: the sizes of an array and its disks; `stripe` has which stripes a disk lies on and where the disks of a stripe
// stand. Of the code, this crate alone opens a size.
#![tactic(auto)]

ghost use Rattle.std.specs.Prelude.{◌≡◌, true, ◌≤◌};
ghost use Rattle.model.specs.Grid.{rows, columns, across, down, disks, disk_at, array_bytes, is_data, size_fits, block_fits};

use model::Size;

pub mod stripe;

// Data rows.
pub fn rows(size: Size) -> usize
    ensures { result ≡ rows size }
{
    size.rows
}

// Data columns.
pub fn columns(size: Size) -> usize
    ensures { result ≡ columns size }
{
    size.columns
}

// Disks in a row of the grid.
pub fn across(size: Size) -> usize
    requires { size_fits size ≡ true }
    ensures { result ≡ across size }
{
    size.columns + 1
}

// Disks in a column of the grid.
pub fn down(size: Size) -> usize
    requires { size_fits size ≡ true }
    ensures { result ≡ down size }
{
    size.rows + 1
}

// Disks of the grid.
pub fn disks(size: Size) -> usize
    requires { size_fits size ≡ true }
    ensures { result ≡ disks size }
{
    down(size) * across(size)
}

// Bytes of an array.
pub fn array_bytes(size: Size, block: usize) -> usize
    requires size_value { size_fits size ≡ true }
    requires block_value { block_fits block ≡ true }
    ensures { result ≡ array_bytes size block }
{
    disks(size) * block
}

// The disk in a row and a column of the grid.
pub fn disk_at(size: Size, row: usize, column: usize) -> usize
    requires size_value { size_fits size ≡ true }
    requires row_bound { row ≤ rows size }
    requires column_bound { column ≤ columns size }
    ensures { result ≡ disk_at size row column }
{
    row * across(size) + column
}

// The disk is one that holds data.
pub fn is_data(size: Size, disk: usize) -> bool
    requires { size_fits size ≡ true }
    ensures { result ≡ is_data size disk }
{
    let across = across(size);
    if disk / across < size.rows {
        return disk % across < size.columns;
    }
    false
}
