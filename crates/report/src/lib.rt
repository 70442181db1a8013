// The text on a loss: a heading and the lines of its list, or a refusal.
#![tactic(auto)]

ghost use Rattle.std.specs.Prelude.{◌≡◌, ◌+◌, ◌*◌, ◌≤◌, ◌<◌, length};
ghost use Rattle.model.specs.Listing.{refused_word, entry_lines, listed as Listing·listed};
ghost use Rattle.model.specs.Answers.{number};
ghost use Rattle.entries.specs.Listed.{listed as Listed·listed};
ghost use Rattle.text.specs.Lines.{word_line};
ghost use Rattle.text.specs.Written.{Written};
ghost use Rattle.report.specs.Report.{reported, Printable};

use layout::stripe::Grid;
use model::Size;
use refusal::Refusal;
use solve::Solved;

// The first `count` entries of a list, a line each: the disk and its stripe.
fn lines(out: &mut [u8], at: usize, list: &[u32], count: usize) -> usize
    requires printable { Printable list.now count }
    requires count_in_bounds { at + 8 * count ≤ length out.old }
    ensures { Written out.old at (entry_lines (Listed·listed list.now count)) out.new result }
{
    let mut next = at;
    for k in 0..count {
        let disk = entries::disk_of(list, k);
        let stripe = entries::stripe_of(list, k);
        next = text::pair(out, next, disk, stripe);
    }
    next
}

// A word with the number of entries, and their lines.
fn listed(out: &mut [u8], word: &[u8], list: &[u32], count: usize) -> usize
    requires word_len_bound { length word.now ≤ 8 }
    requires printable { Printable list.now count }
    requires out_len { length out.old ≡ 320 }
    ensures { Written out.old 0 (Listing·listed word.now (Listed·listed list.now count)) out.new result }
{
    let first = text::heading(out, word, count);
    lines(out, first, list, count)
}

// A refusal by its number.
fn refused(out: &mut [u8], refusal: Refusal) -> usize
    requires out_len { length out.old ≡ 320 }
    ensures { Written out.old 0 (word_line refused_word (number refusal)) out.new result }
{
    text::heading(out, b"refused ", refusal.number() as usize)
}

// The text for a size and a map.
pub fn report(out: &mut [u8], size: Size, map: &[u8]) -> usize
    requires { length out.old ≡ 320 }
    ensures { Written out.old 0 (reported size map.now) out.new result }
{
    if !refusal::size_fits(size) {
        return refused(out, Refusal::Size);
    }
    if !refusal::map_fits(size, 1, map) {
        return refused(out, Refusal::Map);
    }
    let mut list = [0u32; entries::CAPACITY];
    let grid = Grid {
        size,
        base: sheet::BASE,
    };
    let answer = solve::solve(grid, map, &mut list);
    match answer {
        Solved::Repairs(count) => listed(out, b"repair ", &list, count),
        Solved::Cycle { disks, .. } => listed(out, b"fatal ", &list, disks),
    }
}
