// Sheets, into which lists are written. How they lie in bytes is known here and where sheets from elsewhere are read, in `reader`
// and `chain`.
// The entries of a list are counted from 0, the records of a sheet by their numbers from 1.
#![tactic(auto)]

ghost use Rattle.std.specs.Prelude.{◌≡◌, cond, ℕ, ◌≤◌, ◌<◌, eqb, length};
ghost use Rattle.entries.specs.Listed.{entry_stripe, listed};
ghost use Rattle.model.specs.Sheet.{narrow, sheet_bytes, sheets_bytes, sheet_of, sheets_of, sheet_at, blank_sheet, blank_sheets};

// The kinds of sheets: repairs, and a loop.
pub const REPAIR_KIND: u8 = 1;

pub const LOOP_KIND: u8 = 2;

// How many records a sheet has.
pub const RECORDS: usize = 32;

// The bytes of a record: its disk, its stripe in one byte and the number of the next record in another.
pub const DISK_BYTES: usize = 1;

pub const RECORD_BYTES: usize = DISK_BYTES + 2;

// The stripe that column 0 is in a sheet.
pub const BASE: usize = 16;

// The bytes of a sheet: the kind, the number of the first record, the records.
pub const BYTES: usize = 98;

// Zeros the whole sheet.
pub fn zero(sheet: &mut [u8])
    requires { length sheet.old ≡ sheet_bytes narrow }
    ensures { sheet.new ≡ blank_sheet narrow }
{
    sheet.fill(0);
}

// Zeros all of some sheets that stand one after another.
pub fn zero_all(sheets: &mut [u8], number: usize)
    requires { length sheets.old ≡ sheets_bytes narrow number }
    ensures { sheets.new ≡ blank_sheets narrow number }
{
    zeros::wipe(sheets, 0, sheets.len());
}

// Zeros all of them but one.
pub fn zero_others(sheets: &mut [u8], number: usize, own: usize)
    requires own_lt_number { own < number }
    requires number_bound { number ≤ 4096 }
    requires sheets_len { length sheets.old ≡ sheets_bytes narrow number }
    ensures { sheets.new ≡ sheets_of number (λ p. cond (eqb p own) (sheet_at narrow own sheets.old) (blank_sheet narrow)) }
{
    let at = BYTES * own;
    let behind = at + BYTES;
    zeros::wipe(sheets, 0, at);
    zeros::wipe(sheets, behind, sheets.len() - behind);
}

// Writes a list of `count` entries over a blank sheet: record 1 is entry 0, record 2 entry 1, and so on. Each record stands
// behind the number that leads to it. Of a disk the low byte is stored, which is all of it where disks are below 256.
pub fn write(kind: u8, list: &[u32], count: usize, sheet: &mut [u8])
    requires sheet_len { length sheet.old ≡ sheet_bytes narrow }
    requires count_le_records { count ≤ narrow.records }
    requires count_in_bounds { count ≤ length list.now }
    requires by_index { (i : ℕ) → i < count → entry_stripe list.now i < 256 }
    ensures { sheet.new ≡ sheet_of narrow kind (listed list.now count) }
{
    zero(sheet);
    sheet[0] = kind;
    for k in 0..count {
        let at = 1 + RECORD_BYTES * k;
        sheet[at] = (1 + k) as u8;
        sheet[at + 1] = (entries::disk_of(list, k) % 256) as u8;
        sheet[at + 2] = entries::stripe_of(list, k) as u8;
    }
}
