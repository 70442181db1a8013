// What the calls refuse: the tests of their arguments, each with its refusal, in the order's sequence.
#![tactic(auto)]

ghost use Rattle.std.specs.Prelude.{◌≡◌, true};
ghost use Rattle.model.specs.Grid.{side_fits, size_fits, block_fits, sector_fits, sectors_fit, map_bytes, map_fits};
ghost use Rattle.model.specs.Refusal.{refusal, array_tests, sector_tests};
ghost use Rattle.model.specs.Plan.{sheet_tests};
ghost use Rattle.model.specs.Answers.{number, status_of};

use model::Size;
pub use model::answer::Refusal;

// The least and the most data rows, and data columns.
const SIDE_MIN: usize = 2;

const SIDE_MAX: usize = 15;

// The least and the most bytes of a block.
const BLOCK_MIN: usize = 1;

const BLOCK_MAX: usize = 4096;

// The least and the most sectors of a block. The least is also that of the bytes of a sector.
const SECTORS_MIN: usize = 1;

const SECTORS_MAX: usize = 4096;

// The bytes of a sheet.
const SHEET_BYTES: usize = 98;

// The number is one of data rows, or of data columns, that the library takes.
fn side_fits(side: usize) -> bool
    ensures { result ≡ side_fits side }
{
    if side < SIDE_MIN {
        return false;
    }
    side <= SIDE_MAX
}

// The size is one that the library takes.
pub fn size_fits(size: Size) -> bool
    ensures { result ≡ size_fits size }
{
    let rows = layout::rows(size);
    let columns = layout::columns(size);
    if !side_fits(rows) {
        return false;
    }
    side_fits(columns)
}

// The block's length is one that the library takes.
pub fn block_fits(block: usize) -> bool
    ensures { result ≡ block_fits block }
{
    if block < BLOCK_MIN {
        return false;
    }
    block <= BLOCK_MAX
}

// A sector has bytes, and their number divides that of a block.
pub fn sector_fits(block: usize, sector: usize) -> bool
    ensures { result ≡ sector_fits block sector }
{
    if sector < SECTORS_MIN {
        return false;
    }
    block % sector == 0
}

// A block has a number of sectors that the library takes.
pub fn sectors_fit(sectors: usize) -> bool
    ensures { result ≡ sectors_fit sectors }
{
    if sectors < SECTORS_MIN {
        return false;
    }
    sectors <= SECTORS_MAX
}

// The map has so many bytes, and each is 0 or 1, which holds exactly if their inclusive or is.
fn bytes_fit(len: usize, map: &[u8]) -> bool
    ensures { result ≡ map_fits len map.now }
{
    if map.len() != len {
        return false;
    }
    let mut any = 0u8;
    for &byte in map {
        any |= byte;
    }
    any <= 1
}

// The map has a byte for each disk and sector.
pub fn map_fits(size: Size, sectors: usize, map: &[u8]) -> bool
    requires size_value { size_fits size ≡ true }
    requires sectors_value { sectors_fit sectors ≡ true }
    ensures { result ≡ map_fits (map_bytes size sectors) map.now }
{
    bytes_fit(layout::disks(size) * sectors, map)
}

// The tests of the size, the block's length and the array's length, which come first in every call on an array.
pub fn test_array(size: Size, block: usize, len: usize) -> Result<(), Refusal>
    ensures { status_of result ≡ refusal (array_tests size block len) }
{
    if !size_fits(size) {
        return Err(Refusal::Size);
    }
    if !block_fits(block) {
        return Err(Refusal::Block);
    }
    if len != layout::array_bytes(size, block) {
        return Err(Refusal::Array);
    }
    Ok(())
}

// Besides, the test of the sectors, where a call takes their length.
pub fn test_sectors(size: Size, block: usize, len: usize, sector: usize) -> Result<(), Refusal>
    ensures { status_of result ≡ refusal (sector_tests size block len sector) }
{
    test_array(size, block, len)?;
    if !sector_fits(block, sector) {
        return Err(Refusal::Sector);
    }
    Ok(())
}

// The tests of the map and of the length of the sheets, which follow the others in every call that takes both.
pub fn test_sheets(size: Size, sectors: usize, map: &[u8], len: usize) -> Result<(), Refusal>
    requires size_value { size_fits size ≡ true }
    requires sectors_value { sectors_fit sectors ≡ true }
    ensures { status_of result ≡ refusal (sheet_tests size sectors map.now len) }
{
    if !map_fits(size, sectors, map) {
        return Err(Refusal::Map);
    }
    if len != SHEET_BYTES * sectors {
        return Err(Refusal::Sheets);
    }
    Ok(())
}
