// Look: the block of a disk that is present.
#![tactic(auto)]

ghost use Rattle.std.specs.Prelude.{◌≡◌, ◌+◌, ◌*◌, ◌≤◌, length, take, drop};
ghost use Rattle.model.specs.Array.{all_present, look_offset, look_length};

use model::Size;

// All sectors of a disk are present.
fn all_present(map: &[u8], sectors: usize, disk: usize) -> bool
    requires { disk * sectors + sectors ≤ length map.now }
    ensures { result ≡ all_present sectors map.now disk }
{
    let first = disk * sectors;
    map[first..first + sectors].iter().all(|&lost| lost == 0)
}

// Hands back the block of a present disk, as that part of the array, or an empty part.
pub fn look<'a>(
    size: Size,
    block: usize,
    array: &'a [u8],
    sector: usize,
    map: &[u8],
    disk: usize,
) -> &'a [u8]
    ensures bytes { result.now ≡ take (look_length size block sector array.now map.now disk)
        (drop (look_offset size block sector array.now map.now disk 0) array.now) }
    ensures place { result.ref_ptr
        ≡ (array.entry.ref_ptr.0, array.entry.ref_ptr.1 + look_offset size block sector array.now map.now disk 0) }
{
    if refusal::test_sectors(size, block, array.len(), sector).is_err() {
        return &array[..0];
    }
    let sectors = block / sector;
    if !refusal::map_fits(size, sectors, map) {
        return &array[..0];
    }
    if layout::disks(size) <= disk {
        return &array[..0];
    }
    if !all_present(map, sectors, disk) {
        return &array[..0];
    }
    let at = disk * block;
    &array[at..at + block]
}
