// Tidy: a list of repairs from elsewhere rewritten in its tidy form.
#![tactic(auto)]

ghost use Rattle.std.specs.Prelude.{◌≡◌};
ghost use Rattle.model.specs.Sheet.{narrow};
ghost use Rattle.model.specs.Tidy.{tidy_status, tidy_sheet};
ghost use Rattle.model.specs.Answers.{status_of};

use refusal::Refusal;

// Rewrites a sheet with the records of its chain as records 1, 2, 3 in the chain's order, and zeros elsewhere. A sheet that is
// refused keeps its bytes.
pub fn tidy(sheet: &mut [u8]) -> Result<(), Refusal>
    ensures status { status_of result ≡ tidy_status narrow sheet.old }
    ensures sheet { sheet.new ≡ tidy_sheet narrow sheet.old }
{
    if sheet.len() != sheet::BYTES {
        return Err(Refusal::Sheets);
    }
    let mut list = [0u32; entries::CAPACITY];
    let mut marks = [0u8; chain::MARKS];
    let count = chain::read(sheet, &mut list, &mut marks)?;
    sheet::write(sheet::REPAIR_KIND, &list, count, sheet);
    Ok(())
}
