// Zeros for what could not be restored.
ghost use Rattle.std.specs.Prelude.{◌≡◌, ◌*◌, ◌≤◌, length};
ghost use Rattle.stripes.specs.System.{whole};
ghost use Rattle.stripes.specs.Erased.{erasures};
ghost use Rattle.stripes.specs.Repair.{zeroed};

// Every erased sector becomes zero. The map has a byte for each sector of the array.
pub fn zero_erased(sector: usize, array: &mut [u8], map: &[u8])
    requires array_len { length array.old ≡ length map.now * sector }
    requires array_len_bound { length array.old ≤ 1048576 }
    ensures { array.new ≡ zeroed (whole sector) array.old (erasures map.now) }
{
    for i in 0..map.len() {
        if map[i] == 1 {
            zeros::wipe(array, i * sector, sector);
        }
    }
}
