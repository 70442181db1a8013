// What is proved of the definitions, said of the calls: demand 2 of seal, check and write, of look when it hands a block back, demand 3 of
// plan and rebuild's turns on one input, of the plan for one disk what it lists, of follow that it does as rebuild, of tidy what it makes of sheets, and of save
// what it gives back.
#![tactic(auto)]

ghost use Rattle.std.specs.Prelude.{◌≡◌, true, false, ◌↔◌, List, ℕ, ◌+◌, ◌*◌, ◌/◌, ◌≤◌, ◌<◌, length, get_or, take, drop};
ghost use Rattle.stripes.specs.Fold.{count};
ghost use Rattle.stripes.specs.System.{whole};
ghost use Rattle.stripes.specs.Erased.{erasures, Belongs};
ghost use Rattle.stripes.specs.Repair.{fatal, map_after, rebuilt};
ghost use Rattle.stripes.specs.Sectors.{sector_at, sectored, at_position, stretch_at, sector_repairs, of_position};
ghost use Rattle.stripes.specs.Undetermined.{saved};
ghost use Rattle.model.specs.Grid.{layout_of, column_base, disks, map_bytes, map_fits};
ghost use Rattle.model.specs.Refusal.{refusal, array_tests, sector_tests};
ghost use Rattle.model.specs.Array.{seal_status, seal_array, checked, check_status, write_status, write_array, can_look, look_offset, look_length};
ghost use Rattle.model.specs.Sheet.{narrow, sheets_bytes, sheet_at, parts_in};
ghost use Rattle.model.specs.Plan.{plan_tests, sheet_layout, plan_outcome, plan_sheets, outcome_status};
ghost use Rattle.model.specs.PlanDisk.{plan_disk_tests, plan_disk_outcome, plan_disk_sheet, DiskDemand};
ghost use Rattle.model.specs.Rebuild.{buffer_refusal, rebuild_refusal, rebuild_turn};
ghost use Rattle.model.specs.Chain.{Leftover, chain_entries, chain_refusal, clean_refusal};
ghost use Rattle.model.specs.Follow.{Usable, Reads, sheets_entries, list_outcome, list_array, follow_outcome, follow_array, loose_status};
ghost use Rattle.model.specs.Tidy.{tidy_status, tidy_sheet, Tidy, TidyDemand, tidy_sheets};
ghost use Rattle.model.specs.Save.{save_layout, map_tests, save_answer, save_array, saving_status, AsTurn, SaveDemand};
ghost use Rattle.model.specs.Edition.{superparity};
ghost use Rattle.model.specs.Demand2.{SameAt, SealDemand, CheckDemand, WriteDemand};
ghost use Rattle.model.specs.Demand3.{Planned, Demand3, Restorable, TurnKeeps};
ghost use Rattle.model.specs.Turn.{Turn, made_by};
ghost use Rattle.model.specs.Single.{plan_whole, plan_whole_sheet, PlanAlone, rebuild_whole, follow_whole, follow_whole_array, save_whole, save_whole_array, can_look_whole};
ghost use Rattle.model.specs.Series.{turn_bytes, turns_in, end_of, Written};
ghost use Rattle.model.specs.Answers.{status_of, checked_of, outcome_of, repairs_of, saving_of};

use model::Size;
use model::answer::Verdict;
use refusal::Refusal;
use series::Turns;

// Seals an array. Where it is not refused, the array has exactly the parities of the public description.
pub fn seal_array(size: Size, block: usize, array: &mut [u8]) -> Result<(), Refusal>
    ensures status { status_of result ≡ seal_status size block array.old }
    ensures array { array.new ≡ seal_array size block array.old }
    ensures demand2 { status_of result ≡ 0 → SealDemand size block array.old array.new }
{
    seal::seal(size, block, array)
}

// Checks an array. Where it is not refused, the answer is Sealed exactly if all parity equations hold.
pub fn check_array(size: Size, block: usize, array: &[u8]) -> Result<Option<usize>, Refusal>
    ensures answer { checked_of result ≡ checked size block array.now }
    ensures demand2 { refusal (array_tests size block (length array.now)) ≡ 0
        → CheckDemand size block array.now (check_status (checked_of result)) }
{
    scrub::check(size, block, array)
}

// Writes a data disk. Where it is not refused, every stripe's sum stays, and a sealed array becomes what sealing the changed
// data would give.
pub fn write_block(
    size: Size,
    block: usize,
    array: &mut [u8],
    disk: usize,
    data: &[u8],
) -> Result<(), Refusal>
    ensures status { status_of result ≡ write_status size block array.old disk «data».now }
    ensures array { array.new ≡ write_array size block array.old disk «data».now }
    ensures demand2 { status_of result ≡ 0 → WriteDemand size block array.old disk «data».now array.new }
{
    write::write(size, block, array, disk, data)
}

// Hands back the block of a disk, as that part of the array, or an empty part: the block exactly if the tests of the array and of the sectors are
// passed, the map fits, and the disk is one of the grid with all its sectors present. With a single sector a block that is look without sectors.
pub fn look_block<'a>(
    size: Size,
    block: usize,
    array: &'a [u8],
    sector: usize,
    map: &[u8],
    disk: usize,
) -> &'a [u8]
    ensures bytes { result.now ≡ take (look_length size block sector array.now map.now disk)
        (drop (look_offset size block sector array.now map.now disk 0) array.now) }
    ensures place { result.ref_ptr
        ≡ (array.entry.ref_ptr.0, array.entry.ref_ptr.1 + look_offset size block sector array.now map.now disk 0) }
    ensures present { (can_look size block sector array.now map.now disk ≡ true)
        ↔ ((refusal (sector_tests size block (length array.now) sector) ≡ 0)
        × (map_fits (map_bytes size (block / sector)) map.now ≡ true) × (disk < disks size)
        × ((p : ℕ) → p < block / sector → get_or map.now (sector_at (block / sector) p disk) 0 ≡ 0)) }
    ensures single { sector ≡ block
        → can_look size block sector array.now map.now disk
        ≡ can_look_whole size block array.now map.now disk }
{
    look::look(size, block, array, sector, map, disk)
}

// What plan answers, and what rebuild's turns come to.
#[derive(Clone, Copy)]
pub struct Answers {
    pub planned: Result<Verdict, Refusal>,
    pub rebuilt: Turns,
}

// Plans the repair of a loss into one buffer of sheets, the draft, and rebuilds the array in turns of at most `limit` repairs, each with the
// next sheets of a buffer, until the map is clear, a turn is refused or no sheets are left. Demand 3 holds for every input that the
// refusals before 6 let through, if a loss that is not fatal has sheets for its repairs; what it says of plan alone, under plan's
// own refusals and for every sector length. Each position is planned as if it were alone, and sheets of repairs, read in rising order of
// position, list them and are such as follow can use.
pub fn plan_and_rebuild(
    size: Size,
    block: usize,
    array: &mut [u8],
    sector: usize,
    map: &mut [u8],
    sectors: usize,
    draft: &mut [u8],
    sheets: &mut [u8],
    limit: usize,
) -> Answers
    ensures planned { outcome_of result.planned ≡ plan_outcome size sectors map.old draft.old }
    ensures draft { draft.new ≡ plan_sheets size sectors map.old draft.old }
    ensures rebuilt { (outcome_of result.rebuilt.last ≡ (end_of size block sector limit sheets.old array.old map.old).answer)
        × (result.rebuilt.turns ≡ length (turns_in size block sector limit sheets.old array.old map.old))
        × (result.rebuilt.made ≡ made_by (turns_in size block sector limit sheets.old array.old map.old))
        × (result.rebuilt.left ≡ 0) }
    ensures array { array.new ≡ (end_of size block sector limit sheets.old array.old map.old).array }
    ensures map { map.new ≡ (end_of size block sector limit sheets.old array.old map.old).map }
    ensures sheets { Written (turn_bytes block sector) sheets.old sheets.new
        (turns_in size block sector limit sheets.old array.old map.old) }
    ensures plan { refusal (plan_tests size sectors map.old (length draft.old)) ≡ 0
        → Planned sectors (superparity size narrow.base) narrow (erasures map.old) (outcome_of result.planned) draft.new }
    ensures demand3 { sectors ≡ block / sector
        → refusal (plan_tests size sectors map.old (length draft.old)) ≡ 0
        → rebuild_refusal size block sector array.old map.old (take (turn_bytes block sector) sheets.old) limit ≡ 0
        → (fatal (sectored sectors (sheet_layout size)) (erasures map.old) ≡ false
        → count (map_bytes size sectors) (erasures map.old) ≤ length sheets.old / turn_bytes block sector * limit)
        → Demand3 sectors (superparity size narrow.base) narrow sector limit array.old map.old
        (record {
          planned = outcome_of result.planned;
          plan_sheets = draft.new;
          last = outcome_of result.rebuilt.last;
          made = result.rebuilt.made;
          array = array.new;
          map = map.new;
          sheets = parts_in (turn_bytes block sector) result.rebuilt.turns sheets.new;
        }) }
    ensures single { sectors ≡ 1
        → (outcome_of result.planned ≡ plan_whole size map.old draft.old)
        × (draft.new ≡ plan_whole_sheet size map.old draft.old) }
    ensures alone { refusal (plan_tests size sectors map.old (length draft.old)) ≡ 0
        → PlanAlone sectors (sheet_layout size) narrow (erasures map.old) (outcome_of result.planned) draft.new }
    ensures read { refusal (plan_tests size sectors map.old (length draft.old)) ≡ 0
        → fatal (sectored sectors (sheet_layout size)) (erasures map.old) ≡ false
        → Reads narrow sectors draft.new (sector_repairs sectors (sheet_layout size) (erasures map.old))
        × Usable size sectors map.old draft.new }
{
    let planned = plan::plan(size, sectors, map, draft);
    let rebuilt = series::rebuild_in_turns(size, block, array, sector, map, sheets, limit);
    Answers { planned, rebuilt }
}

// Makes one turn. Whatever the limits of other turns are, it makes the next repairs of plan's order and leaves a loss that is restorable again,
// if it was; with a single sector a block it is a turn without sectors. Its sheets, read in rising order of position, list its repairs, and each
// position is left as its own repairs alone leave it.
pub fn rebuild_once(
    size: Size,
    block: usize,
    array: &mut [u8],
    sector: usize,
    map: &mut [u8],
    sheets: &mut [u8],
    limit: usize,
) -> Result<Verdict, Refusal>
    ensures outcome { outcome_of result ≡ (rebuild_turn size block sector array.old map.old sheets.old limit).answer }
    ensures array { array.new ≡ (rebuild_turn size block sector array.old map.old sheets.old limit).array }
    ensures map { map.new ≡ (rebuild_turn size block sector array.old map.old sheets.old limit).map }
    ensures sheets { sheets.new ≡ (rebuild_turn size block sector array.old map.old sheets.old limit).sheets }
    ensures keeps { rebuild_refusal size block sector array.old map.old sheets.old limit ≡ 0
        → (b : List ℕ) → Restorable (sectored (block / sector) (sheet_layout size)) sector b array.old map.old
        → TurnKeeps (block / sector) (sheet_layout size) narrow sector limit b map.old
        (record { answer = outcome_of result; array = array.new; map = map.new; sheets = sheets.new }) }
    ensures single { sector ≡ block
        → ◌≡◌ {A = Turn} (record { answer = outcome_of result; array = array.new; map = map.new; sheets = sheets.new })
        (rebuild_whole size block array.old map.old sheets.old limit) }
    ensures read { outcome_status (outcome_of result) ≡ 0
        → Reads narrow (block / sector) sheets.new
        (take limit (sector_repairs (block / sector) (sheet_layout size) (erasures map.old))) }
    ensures alone { outcome_status (outcome_of result) ≡ 0 → (p : ℕ) → p < block / sector
        → SameAt size block sector p array.new
        (rebuilt (sheet_layout size) (stretch_at block sector p) array.old
        (of_position (block / sector) p (take limit (sector_repairs (block / sector) (sheet_layout size) (erasures map.old))))) }
{
    rebuild::rebuild(size, block, array, sector, map, sheets, limit)
}

// What plan answers for a loss, and what the plan for one disk of it does.
#[derive(Clone, Copy)]
pub struct Plans {
    pub planned: Result<Verdict, Refusal>,
    pub wanted: Result<Verdict, Refusal>,
}

// Plans the repair of a loss at one position into one sheet, the draft, and that of one wanted disk into another. Where neither is refused before 6, the
// second sheet has the shortest list that ends with the disk, as paper 02 orders it, or where no list reaches the disk what the draft
// has. A list is tidy, and with its repairs made look hands the block of the disk out.
pub fn plan_and_plan_disk(
    size: Size,
    map: &[u8],
    draft: &mut [u8],
    sheet: &mut [u8],
    disk: usize,
) -> Plans
    ensures planned { outcome_of result.planned ≡ plan_outcome size 1 map.now draft.old }
    ensures draft { draft.new ≡ plan_sheets size 1 map.now draft.old }
    ensures wanted { outcome_of result.wanted ≡ plan_disk_outcome size map.now sheet.old disk }
    ensures sheet { sheet.new ≡ plan_disk_sheet size map.now sheet.old disk }
    ensures demand { refusal (plan_tests size 1 map.now (length draft.old)) ≡ 0
        → refusal (plan_disk_tests size map.now (length sheet.old) disk) ≡ 0
        → DiskDemand (superparity size narrow.base) narrow (erasures map.now) disk (outcome_of result.planned) draft.new (outcome_of result.wanted)
        sheet.new }
    ensures tidy { outcome_status (outcome_of result.wanted) ≡ 0 → Tidy narrow sheet.new × (clean_refusal narrow sheet.new ≡ 0) }
    ensures look { outcome_status (outcome_of result.wanted) ≡ 0 → (B : ℕ) (a : List ℕ) → refusal (array_tests size B (length a)) ≡ 0
        → can_look size B B (rebuilt (sheet_layout size) (whole B) a (chain_entries narrow sheet.new))
        (map_after map.now (chain_entries narrow sheet.new)) disk
        ≡ true }
{
    let planned = plan::plan(size, 1, map, draft);
    let wanted = wanted::plan_disk(size, map, sheet, disk);
    Plans { planned, wanted }
}

// Follows sheets from elsewhere. With usable sheets it answers what rebuild would in one turn and leaves the same array, whatever
// the order of the repairs, each position as its own sheet alone leaves it; it refuses by 7 exactly if such sheets meet survivors that belong to no
// sealed array; and where the loss is fatal, no sheets make it change anything.
pub fn follow_sheets(
    size: Size,
    block: usize,
    array: &mut [u8],
    sector: usize,
    map: &[u8],
    sheets: &[u8],
) -> Result<usize, Refusal>
    ensures outcome { repairs_of result ≡ follow_outcome size block sector array.old map.now sheets.now }
    ensures array { array.new ≡ follow_array size block sector array.old map.now sheets.now }
    ensures rebuilt { Usable size (block / sector) map.now sheets.now
        → (k : ℕ) → 0 < k → count (map_bytes size (block / sector)) (erasures map.now) ≤ k
        → (repairs_of result ≡ (rebuild_turn size block sector array.old map.now sheets.now k).answer)
        × (array.new ≡ (rebuild_turn size block sector array.old map.now sheets.now k).array) }
    ensures contradicted { buffer_refusal size block sector array.old map.now sheets.now ≡ 0
        → ((outcome_status (repairs_of result) ≡ 7)
        ↔ (Usable size (block / sector) map.now sheets.now
        × (Belongs (sectored (block / sector) (sheet_layout size)) (whole sector) (erasures map.now) array.old → ⊥))) }
    ensures leftovers { buffer_refusal size block sector array.old map.now sheets.now ≡ 0
        → ((outcome_status (repairs_of result) ≡ 14)
        ↔ (((p : ℕ) → p < block / sector → chain_refusal narrow (sheet_at narrow p sheets.now) ≡ 0)
        × ((p : ℕ) × (p < block / sector) × ((i : ℕ) × Leftover narrow (sheet_at narrow p sheets.now) i)))) }
    ensures kept { fatal (sectored (block / sector) (sheet_layout size)) (erasures map.now) ≡ true
        → array.new ≡ array.old }
    ensures single { sector ≡ block
        → (repairs_of result ≡ follow_whole size block array.old map.now sheets.now)
        × (array.new ≡ follow_whole_array size block array.old map.now sheets.now) }
    ensures alone { outcome_status (repairs_of result) ≡ 0 → (p : ℕ) → p < block / sector
        → SameAt size block sector p array.new
        (rebuilt (sheet_layout size) (stretch_at block sector p) array.old (chain_entries narrow (sheet_at narrow p sheets.now))) }
{
    follow::follow(size, block, array, sector, map, sheets)
}

// What tidy answers for two sheets.
#[derive(Clone, Copy)]
pub struct Tidied {
    pub one: Result<(), Refusal>,
    pub other: Result<(), Refusal>,
}

// Tidies two sheets. Each that is taken becomes what is asked for, and where both are taken, they become the same exactly if they
// listed the same disks and stripes in the same order.
pub fn tidy_sheets(one: &mut [u8], other: &mut [u8]) -> Tidied
    ensures statuses { (status_of result.one ≡ tidy_status narrow one.old) × (status_of result.other ≡ tidy_status narrow other.old) }
    ensures sheets { (one.new ≡ tidy_sheet narrow one.old) × (other.new ≡ tidy_sheet narrow other.old) }
    ensures demand { (status_of result.one ≡ 0 → TidyDemand narrow one.old one.new)
        × (status_of result.other ≡ 0 → TidyDemand narrow other.old other.new) }
    ensures same { status_of result.one ≡ 0 → status_of result.other ≡ 0
        → ((one.new ≡ other.new) ↔ (chain_entries narrow one.old ≡ chain_entries narrow other.old)) }
{
    let first = tidy::tidy(one);
    let second = tidy::tidy(other);
    Tidied {
        one: first,
        other: second,
    }
}

// Tidies each of some sheets that stand one after another; those that are refused stay.
fn tidy_each(sheets: &mut [u8])
    ensures { sheets.new ≡ tidy_sheets narrow sheets.old }
{
    let number = sheets.len() / sheet::BYTES;
    for p in 0..number {
        let at = sheet::BYTES * p;
        let _ = tidy::tidy(&mut sheets[at..at + sheet::BYTES]);
    }
}

// Tidies sheets and follows them. The answer and the array are those of follow where leftovers are ignored.
pub fn tidy_and_follow(
    size: Size,
    block: usize,
    array: &mut [u8],
    sector: usize,
    map: &[u8],
    sheets: &mut [u8],
) -> Result<usize, Refusal>
    ensures sheets { sheets.new ≡ tidy_sheets narrow sheets.old }
    ensures outcome { repairs_of result ≡ list_outcome (loose_status size block sector array.old map.now sheets.old)
        (sheets_entries narrow (block / sector) sheets.old) }
    ensures array { array.new
        ≡ list_array (sectored (block / sector) (sheet_layout size)) (whole sector) array.old map.now
        (loose_status size block sector array.old map.now sheets.old)
        (sheets_entries narrow (block / sector) sheets.old) }
{
    tidy_each(sheets);
    let followed = follow::follow(size, block, array, sector, map, sheets);
    followed
}

// Saves what the survivors determine. Where the refusals before 7 let the input through, the promise of paper 02 holds; where the loss is
// not fatal, the answer and the array are those of rebuild in one turn, refusals included. Each position is left as saving it alone leaves it.
pub fn save_sectors(
    size: Size,
    block: usize,
    array: &mut [u8],
    sector: usize,
    map: &[u8],
) -> Result<usize, Refusal>
    ensures answer { saving_of result ≡ save_answer size block sector array.old map.now }
    ensures array { array.new ≡ save_array size block sector array.old map.now }
    ensures demand { refusal (map_tests size block sector (length array.old) map.now) ≡ 0
        → SaveDemand (superparity size (column_base size)) (block / sector) sector array.old map.now (saving_of result) array.new }
    ensures rebuilt { fatal (save_layout size (block / sector)) (erasures map.now) ≡ false
        → (sheets : List ℕ) → length sheets ≡ sheets_bytes narrow (block / sector)
        → (k : ℕ) → 0 < k → count (map_bytes size (block / sector)) (erasures map.now) ≤ k
        → AsTurn (saving_of result) array.new (rebuild_turn size block sector array.old map.now sheets k) }
    ensures single { sector ≡ block
        → (saving_of result ≡ save_whole size block array.old map.now)
        × (array.new ≡ save_whole_array size block array.old map.now) }
    ensures alone { saving_status (saving_of result) ≡ 0 → (p : ℕ) → p < block / sector
        → SameAt size block sector p array.new
        (saved (layout_of size (column_base size)) (stretch_at block sector p) array.old
        (at_position (block / sector) p (erasures map.now))) }
{
    save::save(size, block, array, sector, map)
}
