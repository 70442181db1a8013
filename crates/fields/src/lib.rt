// What a sheet holds, one number at a time. An array of bytes that is lent is a plain pointer in C, without a length.
#![tactic(auto)]

ghost use Rattle.std.specs.Prelude.{◌≡◌, ◌<◌, get_or};
ghost use Rattle.model.specs.Sheet.{narrow};
ghost use Rattle.model.specs.Chain.{kind_of, first_number, entry_at, next_number, if_record};

use reader::Found;

// A record: its disk, its stripe, the number of the next record.
#[derive(Clone, Copy)]
struct Fields {
    disk: usize,
    stripe: usize,
    next: usize,
}

// The record with this number, all zero where there is none: C gets 0 there.
fn record_at(sheet: &[u8; 98], number: usize) -> Fields
    ensures disk { result.disk ≡ if_record narrow number (entry_at narrow sheet.now number).disk }
    ensures stripe { result.stripe ≡ if_record narrow number (entry_at narrow sheet.now number).stripe }
    ensures next { result.next ≡ if_record narrow number (next_number narrow sheet.now number) }
{
    let found = reader::record_at(sheet, number);
    match found {
        Found::Record { disk, stripe, next } => Fields { disk, stripe, next },
        Found::End | Found::Outside => Fields {
            disk: 0,
            stripe: 0,
            next: 0,
        },
    }
}

// A byte of a sheet.
fn byte(sheet: &[u8; 98], place: usize) -> usize
    requires { place < 98 }
    ensures { result ≡ get_or sheet.now place 0 }
{
    usize::from(sheet[place])
}

// The kind of a sheet.
pub fn kind(sheet: &[u8; 98]) -> usize
    ensures { result ≡ kind_of sheet.now }
{
    byte(sheet, 0)
}

// The number of its first record.
pub fn first(sheet: &[u8; 98]) -> usize
    ensures { result ≡ first_number sheet.now }
{
    byte(sheet, 1)
}

// The disk of a record.
pub fn disk(sheet: &[u8; 98], number: usize) -> usize
    ensures { result ≡ if_record narrow number (entry_at narrow sheet.now number).disk }
{
    record_at(sheet, number).disk
}

// The stripe of a record.
pub fn stripe(sheet: &[u8; 98], number: usize) -> usize
    ensures { result ≡ if_record narrow number (entry_at narrow sheet.now number).stripe }
{
    record_at(sheet, number).stripe
}

// The number of the record after it.
pub fn next(sheet: &[u8; 98], number: usize) -> usize
    ensures { result ≡ if_record narrow number (next_number narrow sheet.now number) }
{
    record_at(sheet, number).next
}
