// Cases 10 and 11: sizes, blocks, a map byte and disks that are refused, and the disks beside them that are not.
use model::Size;
use std::io;

// A heading for the lines that follow.
fn heading(rt: &impl Print, rows: usize, columns: usize, block: usize) -> io::Result<()> {
    say::size(rt, rows, columns)?;
    print!(rt; ", B = {block}")?;
    say::end(rt)
}

// What seal, check and write answer.
fn parities(
    rt: &impl Print,
    size: Size,
    block: usize,
    array: &mut [u8],
    new: &[u8],
) -> io::Result<()> {
    say::answer(rt, "seal", seal::seal(size, block, array))?;
    say::checked(rt, "check", scrub::check(size, block, array))?;
    say::answer(rt, "write", write::write(size, block, array, 0, new))
}

// What look, rebuild and follow answer. Look has no number: an empty part has length 0.
fn losses(
    rt: &impl Print,
    size: Size,
    block: usize,
    array: &mut [u8],
    map: &mut [u8],
) -> io::Result<()> {
    let mut sheet = [0u8; 98];
    let found = look::look(size, block, array, block, map, 0).len();
    say::number(rt, "look", found)?;
    let rebuilt = rebuild::rebuild(size, block, array, block, map, &mut sheet, 31);
    say::outcome(rt, "rebuild", rebuilt)?;
    let followed = follow::follow(size, block, array, block, map, &sheet);
    say::answer(rt, "follow", followed)
}

// Each call on an array.
fn calls(
    rt: &impl Print,
    size: Size,
    block: usize,
    array: &mut [u8],
    map: &mut [u8],
    new: &[u8],
) -> io::Result<()> {
    heading(rt, size.rows, size.columns, block)?;
    parities(rt, size, block, array, new)?;
    losses(rt, size, block, array, map)
}

// What plan answers, which takes no block.
fn planned(rt: &impl Print, what: &str, size: Size, map: &[u8]) -> io::Result<()> {
    let mut sheet = [0u8; 98];
    say::outcome(rt, what, plan::plan(size, 1, map, &mut sheet))
}

// Every call for a size, with blocks of one byte.
fn sized(
    rt: &impl Print,
    rows: usize,
    columns: usize,
    array: &mut [u8],
    map: &mut [u8],
) -> io::Result<()> {
    let size = Size { rows, columns };
    calls(rt, size, 1, array, map, b"a")?;
    planned(rt, "plan", size, map)
}

// One data row and one data column, with the buffers that such an array would have.
fn one_by_one(rt: &impl Print) -> io::Result<()> {
    let mut array = [0u8; 4];
    let mut map = [0u8; 4];
    sized(rt, 1, 1, &mut array, &mut map)
}

// One of either alone, likewise.
fn one_beside_two(rt: &impl Print) -> io::Result<()> {
    let mut array = [0u8; 6];
    let mut map = [0u8; 6];
    sized(rt, 1, 2, &mut array, &mut map)?;
    sized(rt, 2, 1, &mut array, &mut map)
}

// 16 of both, likewise.
fn sixteen_by_sixteen(rt: &impl Print) -> io::Result<()> {
    let mut array = [0u8; 289];
    let mut map = [0u8; 289];
    sized(rt, 16, 16, &mut array, &mut map)
}

// 16 of either alone, likewise.
fn sixteen_beside_two(rt: &impl Print) -> io::Result<()> {
    let mut array = [0u8; 51];
    let mut map = [0u8; 51];
    sized(rt, 16, 2, &mut array, &mut map)?;
    sized(rt, 2, 16, &mut array, &mut map)
}

// The size of the cases that have another fault.
fn two_by_two() -> Size {
    Size {
        rows: 2,
        columns: 2,
    }
}

// B = 0, with the buffers that such an array would have.
fn block_zero(rt: &impl Print) -> io::Result<()> {
    let size = two_by_two();
    let mut array = [0u8; 0];
    let mut map = [0u8; 9];
    let new = [0u8; 0];
    calls(rt, size, 0, &mut array, &mut map, &new)
}

// B = 4,097, likewise.
fn block_above(rt: &impl Print) -> io::Result<()> {
    let size = two_by_two();
    let mut array = [0u8; 36873];
    let mut map = [0u8; 9];
    let new = [0u8; 4097];
    calls(rt, size, 4097, &mut array, &mut map, &new)
}

// A map byte of 2, first and last.
fn map_byte(rt: &impl Print) -> io::Result<()> {
    let size = two_by_two();
    let mut array = [0u8; 9];
    let mut sheet = [0u8; 98];
    let mut first = [2u8, 0, 0, 0, 0, 0, 0, 0, 0];
    let last = [0u8, 0, 0, 0, 0, 0, 0, 0, 2];
    heading(rt, 2, 2, 1)?;
    planned(rt, "plan with 2 in the map", size, &first)?;
    planned(rt, "plan with 2 at the map's end", size, &last)?;
    let rebuilt = rebuild::rebuild(size, 1, &mut array, 1, &mut first, &mut sheet, 31);
    say::outcome(rt, "rebuild with 2 in the map", rebuilt)?;
    let followed = follow::follow(size, 1, &mut array, 1, &first, &sheet);
    say::answer(rt, "follow with 2 in the map", followed)
}

// What write answers for disks 2 and 3 of a size with 12 disks.
fn written(rt: &impl Print, rows: usize, columns: usize) -> io::Result<()> {
    let size = Size { rows, columns };
    let mut array = [0u8; 12];
    heading(rt, rows, columns, 1)?;
    let second = write::write(size, 1, &mut array, 2, b"a");
    say::answer(rt, "write to disk 2", second)?;
    let third = write::write(size, 1, &mut array, 3, b"a");
    say::answer(rt, "write to disk 3", third)
}

// Row 0 ends with disk 3 where there are three data columns, and with disk 2 where there are two.
fn last_of_row_0(rt: &impl Print) -> io::Result<()> {
    written(rt, 2, 3)?;
    written(rt, 3, 2)
}

// Disk 2 is the parity of row 0, so that no block is written there.
fn parity_disk(rt: &impl Print) -> io::Result<()> {
    let size = two_by_two();
    let mut array = [1u8, 2, 3, 4, 8, 12, 5, 10, 15];
    let status = write::write(size, 1, &mut array, 2, b"a");
    say::answer(rt, "write to disk 2", status)?;
    say::checked(rt, "check after it", scrub::check(size, 1, &array))
}

pub fn run(rt: &impl Print) -> io::Result<()> {
    one_by_one(rt)?;
    one_beside_two(rt)?;
    sixteen_by_sixteen(rt)?;
    sixteen_beside_two(rt)?;
    block_zero(rt)?;
    block_above(rt)?;
    map_byte(rt)?;
    parity_disk(rt)?;
    last_of_row_0(rt)
}
