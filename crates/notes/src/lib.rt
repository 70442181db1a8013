// Notes: which disks are erased at each position. Until a position is planned, its own sheet holds them, so that the map is read once, in
// the order in which it lies in memory.
#![tactic(auto)]

ghost use Rattle.std.specs.Prelude.{◌≡◌, Bool, true, ℕ, ◌<◌, length};
ghost use Rattle.stripes.specs.Erased.{erasures};
ghost use Rattle.stripes.specs.Sectors.{at_position};
ghost use Rattle.model.specs.Grid.{disks, size_fits, sectors_fit, map_bytes, map_fits};
ghost use Rattle.model.specs.Sheet.{narrow, sheet_bytes, sheets_bytes};
ghost use Rattle.tally.specs.Column.{Located};
ghost use Rattle.notes.specs.Notes.{Notes, EachNotes, noted, Loads};

use model::Size;

// The disks that a sheet has room for, behind the byte that counts them. A restorable position has fewer.
const ROOM: usize = sheet::BYTES - 1;

// Notes a disk more. A sheet that is full counts one more than it has room for.
fn note(sheet: &mut [u8], disk: usize)
    requires sheet_len { length sheet.old ≡ sheet_bytes narrow }
    requires disk_bound { disk < 256 }
    ensures { sheet.new ≡ noted sheet.old disk }
{
    let count = sheet[0] as usize;
    if count < ROOM {
        sheet[count + 1] = disk as u8;
        sheet[0] = (count + 1) as u8;
    } else {
        sheet[0] = (ROOM + 1) as u8;
    }
}

// Notes every erased sector in the sheet of its position. What the sheets held before does not matter. The size says only of what the
// contract speaks.
pub fn note_all(size: Size, sectors: usize, map: &[u8], sheets: &mut [u8])
    requires size_value { size_fits size ≡ true }
    requires sectors_value { sectors_fit sectors ≡ true }
    requires map_value { map_fits (map_bytes size sectors) map.now ≡ true }
    requires sheets_len { length sheets.old ≡ sheets_bytes narrow sectors }
    ensures { EachNotes (disks size) sectors (erasures map.now) sheets.new }
{
    sheet::zero_all(sheets, sectors);
    for i in tally::scan::erased(map) {
        let at = sheet::BYTES * (i % sectors);
        note(&mut sheets[at..at + sheet::BYTES], i / sectors);
    }
}

// The working map becomes the disks that a sheet notes. Where there are more than it has room for, the answer is false and the map is left
// open.
fn load(sheet: &[u8], work: &mut [u8]) -> bool
    requires sheet_len { length sheet.now ≡ sheet_bytes narrow }
    requires by_index { (e : ℕ → Bool) × Notes (length work.old) e sheet.now }
    ensures { result ≡ true → Loads (length work.old) sheet.now work.new }
{
    let count = sheet[0] as usize;
    if ROOM < count {
        return false;
    }
    zeros::wipe(work, 0, work.len());
    for k in 0..count {
        let disk = sheet[k + 1] as usize;
        work[disk] = 1;
    }
    true
}

// The working map becomes the disks that are erased at a position, by the notes in its sheet. Only where they have no room for all of these
// disks the map is read, and its bytes of one position lie far apart.
pub fn load_column(
    size: Size,
    sectors: usize,
    position: usize,
    map: &[u8],
    sheet: &[u8],
    work: &mut [u8],
)
    requires located { Located size sectors position map.now work.old }
    requires sheet_len { length sheet.now ≡ sheet_bytes narrow }
    requires notes { Notes (disks size) (at_position sectors position (erasures map.now)) sheet.now }
    ensures fits { map_fits (disks size) work.new ≡ true }
    ensures erased { erasures work.new ≡ at_position sectors position (erasures map.now) }
{
    if load(sheet, work) {
        return;
    }
    tally::load::gather(size, map, sectors, position, work);
}
