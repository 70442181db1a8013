// The C interface: thin exports over the calls, on numbers, byte buffers and places for one number. include/raid2d.h declares
// them. What is lent without `mut` keeps its bytes: the language lets no call write there. The demands on these calls are stated
// in crates/demands, of the same definitions.
#![tactic(auto)]

ghost use Rattle.std.specs.Prelude.{◌≡◌};
ghost use Rattle.model.specs.Grid.{rectangle, disks_or_zero, array_bytes_or_zero};
ghost use Rattle.model.specs.Sheet.{narrow};
ghost use Rattle.model.specs.Chain.{kind_of, first_number, entry_at, next_number, if_record};
ghost use Rattle.model.specs.Array.{seal_status, seal_array, checked, check_status, check_stripe, write_status, write_array, look_length, look_offset};
ghost use Rattle.model.specs.Plan.{plan_outcome, plan_sheets, outcome_status, outcome_count, outcome_position};
ghost use Rattle.model.specs.PlanDisk.{plan_disk_outcome, plan_disk_sheet};
ghost use Rattle.model.specs.Rebuild.{rebuild_turn};
ghost use Rattle.model.specs.Follow.{follow_outcome, follow_array};
ghost use Rattle.model.specs.Tidy.{tidy_status, tidy_sheet};
ghost use Rattle.model.specs.Save.{save_answer, save_array, saving_status, saving_count};
ghost use Rattle.model.specs.Answers.{status_of, outcome_of, repairs_of, saving_of};

use model::Size;
use model::answer::Verdict;
use refusal::Refusal;

// The version of the library: 10000 times the major number, 100 times the minor number, and the patch.
#[unsafe(no_mangle)]
pub extern "C" fn raid2d_version_number() -> u32
    ensures { result ≡ 1100 }
{
    1100
}

// The number of disks, which is the length of a map without sectors, and the length of an array.
#[unsafe(no_mangle)]
pub extern "C" fn raid2d_disks(rows: usize, columns: usize) -> usize
    ensures { result ≡ disks_or_zero (rectangle rows columns) }
{
    lengths::disks(Size { rows, columns })
}

#[unsafe(no_mangle)]
pub extern "C" fn raid2d_array_bytes(rows: usize, columns: usize, block: usize) -> usize
    ensures { result ≡ array_bytes_or_zero (rectangle rows columns) block }
{
    lengths::array_bytes(Size { rows, columns }, block)
}

// The numbers of a sheet: its kind, its first record, and the fields of the record with a number.
#[unsafe(no_mangle)]
pub extern "C" fn raid2d_sheet_kind(sheet: &[u8; 98]) -> usize
    ensures { result ≡ kind_of sheet.now }
{
    fields::kind(sheet)
}

#[unsafe(no_mangle)]
pub extern "C" fn raid2d_sheet_first(sheet: &[u8; 98]) -> usize
    ensures { result ≡ first_number sheet.now }
{
    fields::first(sheet)
}

#[unsafe(no_mangle)]
pub extern "C" fn raid2d_sheet_disk(sheet: &[u8; 98], number: usize) -> usize
    ensures { result ≡ if_record narrow number (entry_at narrow sheet.now number).disk }
{
    fields::disk(sheet, number)
}

#[unsafe(no_mangle)]
pub extern "C" fn raid2d_sheet_stripe(sheet: &[u8; 98], number: usize) -> usize
    ensures { result ≡ if_record narrow number (entry_at narrow sheet.now number).stripe }
{
    fields::stripe(sheet, number)
}

#[unsafe(no_mangle)]
pub extern "C" fn raid2d_sheet_next(sheet: &[u8; 98], number: usize) -> usize
    ensures { result ≡ if_record narrow number (next_number narrow sheet.now number) }
{
    fields::next(sheet, number)
}

// The number of what seal, write and tidy answer: 0, or that of a refusal.
fn status(answer: Result<(), Refusal>) -> u32
    ensures { result ≡ status_of answer }
{
    match answer {
        Ok(()) => 0,
        Err(refusal) => refusal.number(),
    }
}

#[unsafe(no_mangle)]
pub extern "C" fn raid2d_seal(rows: usize, columns: usize, block: usize, array: &mut [u8]) -> u32
    ensures status { result ≡ seal_status (rectangle rows columns) block array.old }
    ensures array { array.new ≡ seal_array (rectangle rows columns) block array.old }
{
    let answer = seal::seal(Size { rows, columns }, block, array);
    status(answer)
}

#[unsafe(no_mangle)]
pub extern "C" fn raid2d_check(
    rows: usize,
    columns: usize,
    block: usize,
    array: &[u8],
    stripe: &mut usize,
) -> u32
    ensures status { result ≡ check_status (checked (rectangle rows columns) block array.now) }
    ensures stripe { stripe.new ≡ check_stripe (checked (rectangle rows columns) block array.now) stripe.old }
{
    let answer = scrub::check(Size { rows, columns }, block, array);
    match answer {
        Ok(None) => 0,
        Ok(Some(lowest)) => {
            *stripe = lowest;
            64
        }
        Err(refusal) => refusal.number(),
    }
}

#[unsafe(no_mangle)]
pub extern "C" fn raid2d_write(
    rows: usize,
    columns: usize,
    block: usize,
    array: &mut [u8],
    disk: usize,
    data: &[u8],
) -> u32
    ensures status { result ≡ write_status (rectangle rows columns) block array.old disk «data».now }
    ensures array { array.new ≡ write_array (rectangle rows columns) block array.old disk «data».now }
{
    let answer = write::write(Size { rows, columns }, block, array, disk, data);
    status(answer)
}

#[unsafe(no_mangle)]
pub extern "C" fn raid2d_look(
    rows: usize,
    columns: usize,
    block: usize,
    array: &[u8],
    sector: usize,
    map: &[u8],
    disk: usize,
    offset: &mut usize,
) -> usize
    ensures length { result ≡ look_length (rectangle rows columns) block sector array.now map.now disk }
    ensures offset { offset.new
        ≡ look_offset (rectangle rows columns) block sector array.now map.now disk offset.old }
{
    let part = look::look(Size { rows, columns }, block, array, sector, map, disk);
    let len = part.len();
    if len == 0 {
        return 0;
    }
    *offset = disk * block;
    len
}

// The number of what plan, the plan for one disk and rebuild answer; its count goes to `count`, if it has one, and the position that it
// names to `position`.
fn report(answer: Result<Verdict, Refusal>, count: &mut usize, position: &mut usize) -> u32
    ensures status { result ≡ outcome_status (outcome_of answer) }
    ensures count { count.new ≡ outcome_count (outcome_of answer) count.old }
    ensures position { position.new ≡ outcome_position (outcome_of answer) position.old }
{
    match answer {
        Ok(Verdict::Repairs(number)) => {
            *count = number;
            0
        }
        Ok(Verdict::Fatal { lost, position: at }) => {
            *count = lost;
            *position = at;
            6
        }
        Err(reason) => reason.number(),
    }
}

// The same where there is one position.
fn report_one(answer: Result<Verdict, Refusal>, count: &mut usize) -> u32
    ensures status { result ≡ outcome_status (outcome_of answer) }
    ensures count { count.new ≡ outcome_count (outcome_of answer) count.old }
{
    let mut position = 0;
    report(answer, count, &mut position)
}

// The number of what follow and save answer; its count goes to `count`, if it has one.
fn report_count(answer: Result<usize, Refusal>, count: &mut usize) -> u32
    ensures repairs { result ≡ outcome_status (repairs_of answer) }
    ensures repairs_count { count.new ≡ outcome_count (repairs_of answer) count.old }
    ensures saved { result ≡ saving_status (saving_of answer) }
    ensures saved_count { count.new ≡ saving_count (saving_of answer) count.old }
{
    match answer {
        Ok(number) => {
            *count = number;
            0
        }
        Err(cause) => cause.number(),
    }
}

#[unsafe(no_mangle)]
pub extern "C" fn raid2d_plan(
    rows: usize,
    columns: usize,
    sectors: usize,
    map: &[u8],
    sheets: &mut [u8],
    count: &mut usize,
    position: &mut usize,
) -> u32
    ensures status { result ≡ outcome_status (plan_outcome (rectangle rows columns) sectors map.now sheets.old) }
    ensures sheets { sheets.new ≡ plan_sheets (rectangle rows columns) sectors map.now sheets.old }
    ensures count { count.new
        ≡ outcome_count (plan_outcome (rectangle rows columns) sectors map.now sheets.old) count.old }
    ensures position { position.new
        ≡ outcome_position (plan_outcome (rectangle rows columns) sectors map.now sheets.old)
        position.old }
{
    let answer = plan::plan(Size { rows, columns }, sectors, map, sheets);
    report(answer, count, position)
}

#[unsafe(no_mangle)]
pub extern "C" fn raid2d_plan_disk(
    rows: usize,
    columns: usize,
    map: &[u8],
    sheet: &mut [u8],
    disk: usize,
    count: &mut usize,
) -> u32
    ensures status { result ≡ outcome_status (plan_disk_outcome (rectangle rows columns) map.now sheet.old disk) }
    ensures sheet { sheet.new ≡ plan_disk_sheet (rectangle rows columns) map.now sheet.old disk }
    ensures count { count.new
        ≡ outcome_count (plan_disk_outcome (rectangle rows columns) map.now sheet.old disk) count.old }
{
    let answer = wanted::plan_disk(Size { rows, columns }, map, sheet, disk);
    report_one(answer, count)
}

#[unsafe(no_mangle)]
pub extern "C" fn raid2d_rebuild(
    rows: usize,
    columns: usize,
    block: usize,
    array: &mut [u8],
    sector: usize,
    map: &mut [u8],
    sheets: &mut [u8],
    limit: usize,
    count: &mut usize,
    position: &mut usize,
) -> u32
    ensures status { result ≡ outcome_status
        (rebuild_turn (rectangle rows columns) block sector array.old map.old sheets.old limit).answer }
    ensures array { array.new
        ≡ (rebuild_turn (rectangle rows columns) block sector array.old map.old sheets.old limit).array }
    ensures map { map.new
        ≡ (rebuild_turn (rectangle rows columns) block sector array.old map.old sheets.old limit).map }
    ensures sheets { sheets.new
        ≡ (rebuild_turn (rectangle rows columns) block sector array.old map.old sheets.old limit).sheets }
    ensures count { count.new ≡ outcome_count
        (rebuild_turn (rectangle rows columns) block sector array.old map.old sheets.old limit).answer
        count.old }
    ensures position { position.new ≡ outcome_position
        (rebuild_turn (rectangle rows columns) block sector array.old map.old sheets.old limit).answer
        position.old }
{
    let answer = rebuild::rebuild(
        Size { rows, columns },
        block,
        array,
        sector,
        map,
        sheets,
        limit,
    );
    report(answer, count, position)
}

#[unsafe(no_mangle)]
pub extern "C" fn raid2d_follow(
    rows: usize,
    columns: usize,
    block: usize,
    array: &mut [u8],
    sector: usize,
    map: &[u8],
    sheets: &[u8],
    count: &mut usize,
) -> u32
    ensures status { result ≡ outcome_status
        (follow_outcome (rectangle rows columns) block sector array.old map.now sheets.now) }
    ensures array { array.new
        ≡ follow_array (rectangle rows columns) block sector array.old map.now sheets.now }
    ensures count { count.new ≡ outcome_count
        (follow_outcome (rectangle rows columns) block sector array.old map.now sheets.now)
        count.old }
{
    let answer = follow::follow(Size { rows, columns }, block, array, sector, map, sheets);
    report_count(answer, count)
}

#[unsafe(no_mangle)]
pub extern "C" fn raid2d_tidy(sheet: &mut [u8]) -> u32
    ensures status { result ≡ tidy_status narrow sheet.old }
    ensures sheet { sheet.new ≡ tidy_sheet narrow sheet.old }
{
    let answer = tidy::tidy(sheet);
    status(answer)
}

#[unsafe(no_mangle)]
pub extern "C" fn raid2d_save(
    rows: usize,
    columns: usize,
    block: usize,
    array: &mut [u8],
    sector: usize,
    map: &[u8],
    count: &mut usize,
) -> u32
    ensures status { result ≡ saving_status (save_answer (rectangle rows columns) block sector array.old map.now) }
    ensures array { array.new ≡ save_array (rectangle rows columns) block sector array.old map.now }
    ensures count { count.new ≡ saving_count (save_answer (rectangle rows columns) block sector array.old map.now)
        count.old }
{
    let answer = save::save(Size { rows, columns }, block, array, sector, map);
    report_count(answer, count)
}
