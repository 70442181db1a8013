// Case 10: the largest array, 15 data rows and columns with blocks of 4,096 bytes.
ghost use Rattle.std.specs.Prelude.{◌≡◌, ◌≤◌, ◌<◌, length};

use model::Size;
use std::io;

// Stores a value at place `from` and every `step` places on, below `to`.
fn put_every(bytes: &mut [u8], from: usize, to: usize, step: usize, value: u8)
    requires to_in_bounds { to ≤ length bytes.old }
    requires step_nonzero { 0 < step }
    requires step_bound { step < 65536 }
{
    for at in (from..to).step_by(step) {
        bytes[at] = value;
    }
}

// The bytes of the largest array. The contract says how many they are, so that no proof counts them.
fn blank() -> [u8; 1048576]
    ensures { length result ≡ 1048576 }
{
    [0u8; 1048576]
}

// Spoils the blocks of the erased disks.
fn spoil(array: &mut [u8], map: &[u8])
    requires array_len { length array.old ≡ 1048576 }
    requires map_len { length map.now ≡ 256 }
{
    for d in 0..256 {
        if map[d] == 1 {
            let at = d * 4096;
            array[at..at + 4096].fill(165);
        }
    }
}

// A turn of at most 16 repairs on the largest array.
fn turn(rt: &impl Print, what: &str, array: &mut [u8], map: &mut [u8]) -> io::Result<()> {
    let size = Size {
        rows: 15,
        columns: 15,
    };
    let mut sheet = [0u8; 98];
    let answer = rebuild::rebuild(size, 4096, array, 4096, map, &mut sheet, 16);
    say::outcome(rt, what, answer)
}

// Seals an array of many different bytes, loses the first row and the first column, which are as many disks as can come back,
// and restores them in two turns.
pub fn run(rt: &impl Print) -> io::Result<()> {
    let size = Size {
        rows: 15,
        columns: 15,
    };
    let mut array = blank();
    put_every(&mut array, 0, 1048576, 3, 7);
    put_every(&mut array, 1, 1048576, 5, 90);
    put_every(&mut array, 2, 1048576, 4099, 203);
    let status = seal::seal(size, 4096, &mut array);
    say::answer(rt, "seal the largest array", status)?;
    say::checked(rt, "check it", scrub::check(size, 4096, &array))?;
    let sealed = array;
    let mut map = [0u8; 256];
    map[..16].fill(1);
    put_every(&mut map, 0, 256, 16, 1);
    spoil(&mut array, &map);
    let mut sheet = [0u8; 98];
    let answer = plan::plan(size, 1, &map, &mut sheet);
    say::outcome(rt, "plan the loss of a row and a column", answer)?;
    turn(rt, "rebuild 16 disks", &mut array, &mut map)?;
    turn(rt, "rebuild the others", &mut array, &mut map)?;
    let restored = check::same(&array, &sealed);
    say::number(rt, "all bytes restored", restored as usize)
}
