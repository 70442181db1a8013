// Plan: which repairs bring a loss back, in which order, or the cycle that makes it fatal. Every sector position is planned by itself.
#![tactic(auto)]

ghost use Rattle.std.specs.Prelude.{◌≡◌, true, length};
ghost use Rattle.stripes.specs.Erased.{erasures};
ghost use Rattle.stripes.specs.Sectors.{at_position};
ghost use Rattle.model.specs.Grid.{disks, size_fits, sectors_fit, map_bytes, map_fits};
ghost use Rattle.model.specs.Sheet.{narrow, sheet_bytes, sheets_bytes};
ghost use Rattle.model.specs.Plan.{sheet_layout, loss_outcome, plan_outcome, plan_sheets};
ghost use Rattle.model.specs.Answers.{verdict_of, outcome_of};
ghost use Rattle.tally.specs.Column.{Positioned};
ghost use Rattle.plan.specs.Drafted.{position_outcome, draft_sheet, draft_sheets};
ghost use Rattle.notes.specs.Notes.{Notes, EachNotes};

use layout::stripe::Grid;
use model::Size;
use model::answer::Verdict;
use refusal::Refusal;
use solve::Solved;

// Writes the first repairs of the disks that are erased in a column, at most `limit`, into the sheet of its position, or for a fatal loss the
// smallest cycle, and says what the loss there comes to.
fn draft_column(
    size: Size,
    position: usize,
    column: &[u8],
    sheet: &mut [u8],
    limit: usize,
) -> Verdict
    requires size_value { size_fits size ≡ true }
    requires column_value { map_fits (disks size) column.now ≡ true }
    requires sheet_len { length sheet.old ≡ sheet_bytes narrow }
    ensures outcome { verdict_of result ≡ position_outcome (sheet_layout size) (erasures column.now) position }
    ensures sheet { sheet.new ≡ draft_sheet (sheet_layout size) narrow (erasures column.now) limit }
{
    let mut list = [0u32; entries::CAPACITY];
    let grid = Grid {
        size,
        base: sheet::BASE,
    };
    let answer = solve::solve(grid, column, &mut list);
    match answer {
        Solved::Repairs(count) => {
            sheet::write(
                sheet::REPAIR_KIND,
                &list,
                entries::at_most(count, limit),
                sheet,
            );
            Verdict::Repairs(count)
        }
        Solved::Cycle { disks, lost } => {
            sheet::write(sheet::LOOP_KIND, &list, disks, sheet);
            Verdict::Fatal { lost, position }
        }
    }
}

// The same for one position of a map, whose sheet holds its notes.
fn draft_noted(
    size: Size,
    sectors: usize,
    position: usize,
    map: &[u8],
    sheet: &mut [u8],
    limit: usize,
) -> Verdict
    requires positioned { Positioned size sectors position map.now }
    requires sheet_len { length sheet.old ≡ sheet_bytes narrow }
    requires notes { Notes (disks size) (at_position sectors position (erasures map.now)) sheet.old }
    ensures outcome { verdict_of result ≡ position_outcome (sheet_layout size) (at_position sectors position (erasures map.now)) position }
    ensures sheet { sheet.new
        ≡ draft_sheet (sheet_layout size) narrow (at_position sectors position (erasures map.now)) limit }
{
    let mut column = [0u8; tally::DISKS];
    let disks = layout::disks(size);
    let own = &mut column[..disks];
    notes::load_column(size, sectors, position, map, sheet, own);
    draft_column(size, position, own, sheet, limit)
}

// The draft of sheets that hold the notes of their positions.
fn draft_all(size: Size, sectors: usize, map: &[u8], sheets: &mut [u8], limit: usize) -> Verdict
    requires size_value { size_fits size ≡ true }
    requires sectors_value { sectors_fit sectors ≡ true }
    requires map_value { map_fits (map_bytes size sectors) map.now ≡ true }
    requires sheets_len { length sheets.old ≡ sheets_bytes narrow sectors }
    requires each_notes { EachNotes (disks size) sectors (erasures map.now) sheets.old }
    ensures outcome { verdict_of result ≡ loss_outcome sectors (sheet_layout size) (erasures map.now) }
    ensures sheets { sheets.new ≡ draft_sheets sectors (sheet_layout size) narrow (erasures map.now) limit }
{
    let mut count = 0;
    let mut left = limit;
    for p in 0..sectors {
        let at = sheet::BYTES * p;
        let own = &mut sheets[at..at + sheet::BYTES];
        let answer = draft_noted(size, sectors, p, map, own, left);
        let Verdict::Repairs(number) = answer else {
            sheet::zero_others(sheets, sectors, p);
            return answer;
        };
        count += number;
        left -= entries::at_most(number, left);
    }
    Verdict::Repairs(count)
}

// Writes the first repairs of a loss, at most `limit`, into the sheets of their positions, which are taken in rising order; or for a fatal
// loss the smallest cycle at the lowest position where it is fatal, and zeros elsewhere. The map is only read. With one sector a block it is taken as
// it is.
pub fn draft(size: Size, sectors: usize, map: &[u8], sheets: &mut [u8], limit: usize) -> Verdict
    requires size_value { size_fits size ≡ true }
    requires sectors_value { sectors_fit sectors ≡ true }
    requires map_value { map_fits (map_bytes size sectors) map.now ≡ true }
    requires sheets_len { length sheets.old ≡ sheets_bytes narrow sectors }
    ensures outcome { verdict_of result ≡ loss_outcome sectors (sheet_layout size) (erasures map.now) }
    ensures sheets { sheets.new ≡ draft_sheets sectors (sheet_layout size) narrow (erasures map.now) limit }
{
    if sectors == 1 {
        return draft_column(size, 0, map, sheets, limit);
    }
    notes::note_all(size, sectors, map, sheets);
    draft_all(size, sectors, map, sheets, limit)
}

// Writes all repairs, or for a fatal loss the smallest cycle, into the sheets. The map is only read.
pub fn plan(size: Size, sectors: usize, map: &[u8], sheets: &mut [u8]) -> Result<Verdict, Refusal>
    ensures outcome { outcome_of result ≡ plan_outcome size sectors map.now sheets.old }
    ensures sheets { sheets.new ≡ plan_sheets size sectors map.now sheets.old }
{
    if !refusal::size_fits(size) {
        return Err(Refusal::Size);
    }
    if !refusal::sectors_fit(sectors) {
        return Err(Refusal::Sector);
    }
    refusal::test_sheets(size, sectors, map, sheets.len())?;
    Ok(draft(size, sectors, map, sheets, sectors * entries::CAPACITY))
}
