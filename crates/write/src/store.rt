// A write: the difference between the new block and the old one is added to the block itself, to the row parity, to the
// column parity and to the superparity.
ghost use Rattle.std.specs.Prelude.{◌≡◌, true, ◌+◌, ◌*◌, ◌≤◌};
ghost use Rattle.model.specs.Grid.{size_fits, block_fits, is_data};
ghost use Rattle.model.specs.Array.{write_status, written};
ghost use Rattle.write.specs.Store.{places_of, Room, parts};

use model::Size;

// Where the four blocks start.
#[derive(Clone, Copy)]
struct Places {
    own: usize,
    row: usize,
    column: usize,
    corner: usize,
}

fn find_places(size: Size, block: usize, disk: usize) -> Places
    requires size_value { size_fits size ≡ true }
    requires block_value { block_fits block ≡ true }
    requires disk_value { is_data size disk ≡ true }
    ensures { result ≡ places_of size block disk }
{
    let last_row = layout::rows(size);
    let last_column = layout::columns(size);
    let across = layout::across(size);
    Places {
        own: disk * block,
        row: layout::disk_at(size, disk / across, last_column) * block,
        column: layout::disk_at(size, last_row, disk % across) * block,
        corner: layout::disk_at(size, last_row, last_column) * block,
    }
}

// `store` for the W * count bytes from `from` on, W at a time. Bytes that are stored already stay as they are, since there the
// difference is zero.
#[inline(always)]
fn store_parts<const W: usize>(array: &mut [u8], at: Places, data: &[u8], from: usize, count: usize)
    requires { Room (from + W * count) at «data».now array.old }
    ensures { array.new ≡ parts at «data».now from W array.old count }
{
    for i in 0..count {
        let k = from + W * i;
        let change: [u8; W] = xor::put::difference(array, at.own + k, data, k);
        xor::put::add(array, at.own + k, &change);
        xor::put::add(array, at.row + k, &change);
        xor::put::add(array, at.column + k, &change);
        xor::put::add(array, at.corner + k, &change);
    }
}

// The parts are those of the leaf loops (crate xor), without 32. A last part that overlaps another comes first: what both store
// is then no longer on its way to memory when it is read again.
pub fn store(size: Size, block: usize, array: &mut [u8], disk: usize, data: &[u8])
    requires { write_status size block array.old disk «data».now ≡ 0 }
    ensures { array.new ≡ written size block array.old disk «data».now }
{
    let at = find_places(size, block, disk);
    if block < 16 {
        store_parts::<1>(array, at, data, 0, block);
        return;
    }
    let last = (block % 16 + 15) / 16;
    let narrow = block % 128;
    store_parts::<16>(array, at, data, block - 16 * last, last);
    store_parts::<128>(array, at, data, 0, block / 128);
    store_parts::<16>(array, at, data, block - narrow, narrow / 16);
}
