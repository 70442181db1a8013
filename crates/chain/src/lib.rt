// The chain of a sheet from elsewhere, which may visit its records in any order, and what stands off it.
#![tactic(auto)]

ghost use Rattle.std.specs.Prelude.{◌≡◌, false, ℕ, ◌+◌, ◌≤◌, ◌<◌, length};
ghost use Rattle.stripes.specs.Fold.{every};
ghost use Rattle.stripes.specs.System.{among};
ghost use Rattle.entries.specs.Listed.{listed};
ghost use Rattle.model.specs.Sheet.{narrow, sheet_bytes};
ghost use Rattle.model.specs.Chain.{chain_numbers, chain_refusal, clean_refusal, chain_entries};
ghost use Rattle.chain.specs.Read.{marked, in_order, chain_read, chain_of};

use reader::Found;
use refusal::Refusal;

// A mark for each number up to that of the last record: 1 for a record that a chain visits, else 0.
pub const MARKS: usize = sheet::RECORDS + 1;

// Reads the records of a chain into a list, in the chain's order, marks them, and says how many they are. What list and marks hold after a
// refusal is left open.
pub fn read(sheet: &[u8], list: &mut [u32], marks: &mut [u8]) -> Result<usize, Refusal>
    requires sheet_len { length sheet.now ≡ sheet_bytes narrow }
    requires records_in_bounds { narrow.records ≤ length list.old }
    requires records_in_bounds_2 { narrow.records < length marks.old }
    requires by_index { (k : ℕ) → marked marks.old k ≡ false }
    ensures chain { chain_of result ≡ chain_read (chain_refusal narrow sheet.now) sheet.now }
    ensures list { chain_refusal narrow sheet.now ≡ 0
        → listed list.new (length (chain_entries narrow sheet.now)) ≡ chain_entries narrow sheet.now }
    ensures marks { chain_refusal narrow sheet.now ≡ 0
        → (k : ℕ) → marked marks.new k ≡ among k (chain_numbers narrow sheet.now) }
{
    if sheet[0] != sheet::REPAIR_KIND {
        return Err(Refusal::Chain);
    }
    let mut number = sheet[1] as usize;
    let mut count = 0;
    while let Found::Record { disk, stripe, next } = reader::read(sheet, number) {
        if count == sheet::RECORDS {
            return Err(Refusal::Ring);
        }
        entries::put(list, count, disk, stripe);
        marks[number] = 1;
        number = next;
        count += 1;
    }
    if number == 0 {
        return Ok(count);
    }
    Err(Refusal::Chain)
}

// Whether each of the 16 bytes from `at` on is zero or in a record that is marked.
fn group_in_order(sheet: &[u8], marks: &[u8], at: usize) -> bool
    requires sheet_len { length sheet.now ≡ sheet_bytes narrow }
    requires records_in_bounds { narrow.records < length marks.now }
    requires le_at { (2 ≤ at) × (at + 16 ≤ sheet_bytes narrow) }
    ensures { result ≡ every 16 (λ j. in_order marks.now sheet.now (at + j)) }
{
    for j in 0..16 {
        if sheet[at + j] != 0 && marks[(at + j - 2) / sheet::RECORD_BYTES + 1] != 1 {
            return false;
        }
    }
    true
}

// Whether every byte is zero that is in no record marked. The first two bytes of a sheet are in no record and may hold anything.
// Most of a sheet is zero, and so it is gone over by groups of 16 bytes.
pub fn rest_is_zero(sheet: &[u8], marks: &[u8]) -> bool
    requires sheet_len { length sheet.now ≡ sheet_bytes narrow }
    requires records_in_bounds { narrow.records < length marks.now }
    ensures { result ≡ every (sheet_bytes narrow) (in_order marks.now sheet.now) }
{
    for at in (2..sheet::BYTES).step_by(16) {
        if !zeros::all_zero16(sheet, at) && !group_in_order(sheet, marks, at) {
            return false;
        }
    }
    true
}

// Reads the records of a chain off which nothing is left over, and says how many they are.
pub fn read_clean(sheet: &[u8], list: &mut [u32]) -> Result<usize, Refusal>
    requires sheet_len { length sheet.now ≡ sheet_bytes narrow }
    requires records_in_bounds { narrow.records ≤ length list.old }
    ensures chain { chain_of result ≡ chain_read (clean_refusal narrow sheet.now) sheet.now }
    ensures list { clean_refusal narrow sheet.now ≡ 0
        → listed list.new (length (chain_entries narrow sheet.now)) ≡ chain_entries narrow sheet.now }
{
    let mut marks = [0u8; MARKS];
    let count = read(sheet, list, &mut marks)?;
    if !rest_is_zero(sheet, &marks) {
        return Err(Refusal::Leftovers);
    }
    Ok(count)
}

// Reads the records of a chain that is known to be one of repairs, and says how many they are.
pub fn list(sheet: &[u8], list: &mut [u32]) -> usize
    requires sheet_len { length sheet.now ≡ sheet_bytes narrow }
    requires records_in_bounds { narrow.records ≤ length list.old }
    requires sheet_value { chain_refusal narrow sheet.now ≡ 0 }
    ensures number { result ≡ length (chain_entries narrow sheet.now) }
    ensures list { listed list.new result ≡ chain_entries narrow sheet.now }
{
    let mut marks = [0u8; MARKS];
    read(sheet, list, &mut marks).unwrap()
}
