// A series of turns: rebuild called again and again on one input, with sheets for each turn.
#![tactic(auto)]

ghost use Rattle.std.specs.Prelude.{◌≡◌, ◌+◌, ◌*◌, ◌/◌, ◌≤◌, ◌<◌, ltb, length};
ghost use Rattle.stripes.specs.Fold.{count};
ghost use Rattle.stripes.specs.Erased.{erasures};
ghost use Rattle.model.specs.Plan.{sheet_layout};
ghost use Rattle.stripes.specs.Sectors.{sectored};
ghost use Rattle.model.specs.Rebuild.{rebuild_turn};
ghost use Rattle.model.specs.Series.{positions as Series·positions, turn_bytes, start, turns_in, end_of, Written};
ghost use Rattle.series.specs.Total.{total_of_turns, total_of, next_total};

use model::Size;
use model::answer::Verdict;
use refusal::Refusal;

// What turns come to: the last answer, how many they are, how many repairs they made, and for how many others sheets are left; none
// if no other is to come.
#[derive(Clone, Copy)]
pub struct Turns {
    pub last: Result<Verdict, Refusal>,
    pub turns: usize,
    pub made: usize,
    pub left: usize,
}

// Some sector is erased.
fn any_erased(map: &[u8]) -> bool
    ensures { result ≡ ltb 0 (count (length map.now) (erasures map.now)) }
{
    tally::scan::next_erased(map, 0) < map.len()
}

// The positions that a turn has sheets for: one where block or sector is refused.
fn positions(block: usize, sector: usize) -> usize
    ensures { result ≡ Series·positions block sector }
{
    if !refusal::block_fits(block) {
        return 1;
    }
    if !refusal::sector_fits(block, sector) {
        return 1;
    }
    block / sector
}

// One turn more, with sheets of its own. No turn makes as many repairs as its sheets have bytes.
fn turn(
    size: Size,
    block: usize,
    array: &mut [u8],
    sector: usize,
    map: &mut [u8],
    sheets: &mut [u8],
    limit: usize,
    done: Turns,
) -> Turns
    requires left_nonzero { 0 < done.left }
    requires made_bound { done.made ≤ turn_bytes block sector * done.turns }
    requires turns_bound { turn_bytes block sector * (done.turns + 1) < 9223372036854775808 }
    ensures turns { total_of_turns result ≡ next_total (sectored (block / sector) (sheet_layout size)) (total_of_turns done)
        (rebuild_turn size block sector array.old map.old sheets.old limit) }
    ensures array { array.new ≡ (rebuild_turn size block sector array.old map.old sheets.old limit).array }
    ensures map { map.new ≡ (rebuild_turn size block sector array.old map.old sheets.old limit).map }
    ensures sheets { sheets.new ≡ (rebuild_turn size block sector array.old map.old sheets.old limit).sheets }
{
    let last = rebuild::rebuild(size, block, array, sector, map, sheets, limit);
    let turns = done.turns + 1;
    let Ok(Verdict::Repairs(count)) = last else {
        return Turns {
            last,
            turns,
            made: done.made,
            left: 0,
        };
    };
    if any_erased(map) {
        return Turns {
            last,
            turns,
            made: done.made + count,
            left: done.left - 1,
        };
    }
    Turns {
        last,
        turns,
        made: done.made + count,
        left: 0,
    }
}

// Turns until the map is clear, one is refused or no sheets are left in the buffer, which holds those of one turn after another.
pub fn rebuild_in_turns(
    size: Size,
    block: usize,
    array: &mut [u8],
    sector: usize,
    map: &mut [u8],
    sheets: &mut [u8],
    limit: usize,
) -> Turns
    ensures turns { total_of_turns result ≡ total_of (start array.old map.old)
        (turns_in size block sector limit sheets.old array.old map.old) }
    ensures array { array.new ≡ (end_of size block sector limit sheets.old array.old map.old).array }
    ensures map { map.new ≡ (end_of size block sector limit sheets.old array.old map.old).map }
    ensures sheets { Written (turn_bytes block sector) sheets.old sheets.new
        (turns_in size block sector limit sheets.old array.old map.old) }
{
    let bytes = sheet::BYTES * positions(block, sector);
    let mut done = Turns {
        last: Err(Refusal::Sheets),
        turns: 0,
        made: 0,
        left: sheets.len() / bytes,
    };
    // A while, since each turn says for how many others sheets are left, and the last leaves none.
    while 0 < done.left {
        let at = bytes * done.turns;
        let own = &mut sheets[at..at + bytes];
        done = turn(size, block, array, sector, map, own, limit, done);
    }
    done
}
