// The sheets of all positions judged: nothing is repaired here.
ghost use Rattle.std.specs.Prelude.{◌≡◌, true, ℕ, ◌<◌, length};
ghost use Rattle.stripes.specs.Erased.{erasures};
ghost use Rattle.stripes.specs.Repair.{clears};
ghost use Rattle.stripes.specs.Sectors.{sectored};
ghost use Rattle.model.specs.Grid.{layout_of, sectors_fit, map_bytes, map_fits};
ghost use Rattle.model.specs.Refusal.{earlier};
ghost use Rattle.model.specs.Sheet.{narrow, sheets_bytes, sheet_at};
ghost use Rattle.model.specs.Chain.{chain_refusal};
ghost use Rattle.model.specs.Follow.{sheets_entries};
ghost use Rattle.model.specs.Answers.{number, number_if};
ghost use Rattle.chain.specs.Read.{chain_of};
ghost use Rattle.follow.specs.Judged.{chains_read};

use layout::stripe::Grid;
use refusal::Refusal;

// Of two refusals the one that stands first in follow's list: 10, 13 and 14 stand there in rising order. Inlined, the numbers become a
// jump to a place that is computed, which no bound on the stack can be read from.
#[inline(never)]
fn first_of(one: Option<Refusal>, other: Refusal) -> Refusal
    ensures { number result ≡ earlier (number_if one) (number other) }
{
    let Some(first) = one else {
        return other;
    };
    if other.number() < first.number() {
        return other;
    }
    first
}

// How many repairs all sheets list, or the refusal by their chains and by what stands off them.
pub fn read_all(sectors: usize, sheets: &[u8]) -> Result<usize, Refusal>
    requires sectors_value { sectors_fit sectors ≡ true }
    requires sheets_len { length sheets.now ≡ sheets_bytes narrow sectors }
    ensures { chain_of result ≡ chains_read sectors sheets.now }
{
    let mut list = [0u32; entries::CAPACITY];
    let mut refused = None;
    let mut number = 0;
    for p in 0..sectors {
        let at = sheet::BYTES * p;
        let own = chain::read_clean(&sheets[at..at + sheet::BYTES], &mut list);
        match own {
            Ok(count) => number += count,
            Err(refusal) => refused = Some(first_of(refused, refusal)),
        }
    }
    match refused {
        Some(refusal) => Err(refusal),
        None => Ok(number),
    }
}

// At each position the repairs of its sheet are allowed and leave no disk erased.
pub fn all_clear(grid: Grid, sectors: usize, map: &[u8], sheets: &[u8]) -> bool
    requires sectors_value { sectors_fit sectors ≡ true }
    requires map_value { map_fits (map_bytes grid.size sectors) map.now ≡ true }
    requires sheets_len { length sheets.now ≡ sheets_bytes narrow sectors }
    requires by_index { (p : ℕ) → p < sectors → chain_refusal narrow (sheet_at narrow p sheets.now) ≡ 0 }
    ensures { result
        ≡ clears (sectored sectors (layout_of grid.size grid.base)) (erasures map.now) (sheets_entries narrow sectors sheets.now) }
{
    let mut list = [0u32; entries::CAPACITY];
    for p in 0..sectors {
        let at = sheet::BYTES * p;
        let count = chain::list(&sheets[at..at + sheet::BYTES], &mut list);
        if !replay::clears(grid, map, sectors, p, &list, count) {
            return false;
        }
    }
    true
}
