// The reader of a lent sheet: the sheet and the number of the next record. `new` and `next` do no work of their own:
// `record_at` does it, and other crates call `record_at` or `read`.
#![tactic(auto)]

ghost use Rattle.std.specs.Prelude.{◌≡◌};
ghost use Rattle.reader.specs.Found.{found_at};

#[derive(Clone, Copy)]
pub struct Reader<'a> {
    pub sheet: &'a [u8],
    pub number: usize,
}

// What stands under a number.
#[derive(Clone, Copy)]
pub enum Found {
    // A record: its disk, its stripe, the number of the next record.
    Record {
        disk: usize,
        stripe: usize,
        next: usize,
    },
    // Number 0, which ends the chain.
    End,
    // A number that no record of the sheet has.
    Outside,
}

// What stands under a number of a sheet.
#[tactic(auto, unfolding(crate::specs::Found::found_at, model::specs::Chain::entry_at, model::specs::Chain::next_number, model::specs::Sheet::number_at))]
pub fn record_at(sheet: &[u8], number: usize) -> Found
    ensures { result ≡ found_at sheet.now number }
{
    if number == 0 {
        return Found::End;
    }
    if sheet::RECORDS < number {
        return Found::Outside;
    }
    if sheet.len() != sheet::BYTES {
        return Found::Outside;
    }
    let at = 2 + sheet::RECORD_BYTES * (number - 1);
    Found::Record {
        disk: sheet[at] as usize,
        stripe: sheet[at + sheet::DISK_BYTES] as usize,
        next: sheet[at + sheet::DISK_BYTES + 1] as usize,
    }
}

// A reader of a sheet, before the record with this number.
pub fn new(sheet: &[u8], number: usize) -> Reader<'_>
    ensures { (result.sheet ≡ sheet.entry) × (result.number ≡ number) }
{
    Reader { sheet, number }
}

// The record that it stands before.
pub fn next(reader: Reader<'_>) -> Found
    ensures { result ≡ found_at reader.entry.sheet.now reader.entry.number }
{
    record_at(reader.sheet, reader.number)
}

// The same on plain parameters: what a reader of the sheet finds under the number.
pub fn read(sheet: &[u8], number: usize) -> Found
    ensures { result ≡ found_at sheet.now number }
{
    next(new(sheet, number))
}
