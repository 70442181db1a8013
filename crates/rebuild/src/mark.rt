// What repairs do to the map.
ghost use Rattle.std.specs.Prelude.{◌≡◌, map as List·map, ℕ, ◌+◌, ◌*◌, ◌≤◌, ◌<◌, length};
ghost use Rattle.stripes.specs.Repair.{map_after};
ghost use Rattle.stripes.specs.Sectors.{sector_at, sector_entry};
ghost use Rattle.model.specs.Sheet.{narrow, sheets_bytes, sheet_at};
ghost use Rattle.model.specs.Chain.{chain_refusal};
ghost use Rattle.model.specs.Follow.{sheets_entries};
ghost use Rattle.entries.specs.Listed.{entry_disk, listed};
ghost use Rattle.rebuild.specs.Marked.{Within};

// At one position of a map with `sectors` bytes for each disk, the disks of the first `count` repairs of a list are present: their bytes
// become 0.
fn mark_position(map: &mut [u8], sectors: usize, position: usize, list: &[u32], count: usize)
    requires sectors_bound { sectors ≤ 4096 }
    requires position_lt_sectors { position < sectors }
    requires count_in_bounds { count ≤ length list.now }
    requires by_index { (k : ℕ) → k < count → sector_at sectors position (entry_disk list.now k) < length map.old }
    ensures { map.new
        ≡ map_after map.old (List·map (sector_entry sectors position) (listed list.now count)) }
{
    for k in 0..count {
        let disk = entries::disk_of(list, k);
        map[disk * sectors + position] = 0;
    }
}

// The sectors of all repairs that the sheets list are present.
pub fn mark_present(map: &mut [u8], sectors: usize, sheets: &[u8])
    requires sectors_bound { sectors ≤ 4096 }
    requires sheets_len { length sheets.now ≡ sheets_bytes narrow sectors }
    requires by_index { (p : ℕ) → p < sectors → chain_refusal narrow (sheet_at narrow p sheets.now) ≡ 0 }
    requires within { Within (length map.old) (sheets_entries narrow sectors sheets.now) }
    ensures { map.new ≡ map_after map.old (sheets_entries narrow sectors sheets.now) }
{
    let mut list = [0u32; entries::CAPACITY];
    for p in 0..sectors {
        let at = sheet::BYTES * p;
        let count = chain::list(&sheets[at..at + sheet::BYTES], &mut list);
        mark_position(map, sectors, p, &list, count);
    }
}
