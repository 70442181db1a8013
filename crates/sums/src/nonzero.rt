// Stripes whose sum is not zero somewhere. Rows come before columns. Where there is none, the answer is a number past the last, as `lowest`
// of the definitions has it.
ghost use Rattle.std.specs.Prelude.{◌≡◌, ◌+◌};
ghost use Rattle.stripes.specs.Fold.{lowest};
ghost use Rattle.stripes.specs.System.{consistent};
ghost use Rattle.model.specs.Grid.{across, down, layout_of};
ghost use Rattle.sums.specs.Held.{Held, nonzero};

use layout::stripe::Grid;
use stripes::Stretch;

// The lowest such row, or the number of rows where there is none.
fn lowest_row(grid: Grid, stretch: Stretch, array: &[u8]) -> usize
    requires held { Held grid.size stretch array.now }
    ensures { result ≡ lowest (down grid.size) (nonzero grid.size grid.base stretch array.now) }
{
    let across = layout::across(grid.size);
    let down = layout::down(grid.size);
    let row_bytes = across * stretch.block;
    xor::cancel::lowest_nonzero(
        array,
        stretch.offset,
        row_bytes,
        down,
        stretch.block,
        across,
        across,
        stretch.width,
    )
}

// The lowest such column, counted from 0, or the number of columns where there is none, of an array whose rows all sum to zero.
// Whole blocks are tested in all columns but the last at once first, as the sum of whole rows; the sum of the last follows from
// the others. Only where that is not zero is there a column to look for.
fn lowest_column(grid: Grid, stretch: Stretch, array: &[u8]) -> usize
    requires held { Held grid.size stretch array.now }
    requires array_value { lowest (down grid.size) (nonzero grid.size grid.base stretch array.now) ≡ down grid.size }
    ensures { result ≡ lowest (across grid.size) (λ c. nonzero grid.size grid.base stretch array.now (grid.base + c)) }
{
    let across = layout::across(grid.size);
    let down = layout::down(grid.size);
    let row_bytes = across * stretch.block;
    if stretch.width == stretch.block {
        let rest = layout::columns(grid.size) * stretch.block;
        if xor::cancel::cancels(array, 0, row_bytes, down, down, rest) {
            return across;
        }
    }
    xor::cancel::lowest_nonzero(
        array,
        stretch.offset,
        stretch.block,
        across,
        row_bytes,
        down,
        down,
        stretch.width,
    )
}

// The lowest such stripe, or one number more than the highest where there is none.
pub fn lowest_nonzero(grid: Grid, stretch: Stretch, array: &[u8]) -> usize
    requires held { Held grid.size stretch array.now }
    ensures { result ≡ lowest (layout_of grid.size grid.base).stripe_bound (nonzero grid.size grid.base stretch array.now) }
{
    let row = lowest_row(grid, stretch, array);
    if row < layout::down(grid.size) {
        return row;
    }
    grid.base + lowest_column(grid, stretch, array)
}

// Every stripe's sum is zero.
pub fn all_cancel(grid: Grid, stretch: Stretch, array: &[u8]) -> bool
    requires held { Held grid.size stretch array.now }
    ensures { result ≡ consistent (layout_of grid.size grid.base) stretch array.now }
{
    lowest_nonzero(grid, stretch, array) == grid.bound()
}
