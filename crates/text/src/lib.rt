// Lines of words and numbers, put into a buffer: each function answers the place behind what it has put.
#![tactic(auto)]

ghost use Rattle.std.specs.Prelude.{[], ◌∷◌, ◌+◌, ◌≤◌, ◌<◌, length};
ghost use Rattle.model.specs.Listing.{digit as Listing·digit, decimal};
ghost use Rattle.text.specs.Lines.{word_line, pair_line};
ghost use Rattle.text.specs.Written.{Written};

// One byte.
fn byte(out: &mut [u8], at: usize, value: u8) -> usize
    requires { at < length out.old }
    ensures { Written out.old at (value ∷ []) out.new result }
{
    out[at] = value;
    at + 1
}

// All bytes of a word.
fn word(out: &mut [u8], at: usize, letters: &[u8]) -> usize
    requires { at + length letters.now ≤ length out.old }
    ensures { Written out.old at letters.now out.new result }
{
    let end = at + letters.len();
    out[at..end].copy_from_slice(letters);
    end
}

// One decimal digit.
fn digit(out: &mut [u8], at: usize, value: usize) -> usize
    requires at_in_bounds { at < length out.old }
    requires value_bound { value < 10 }
    ensures { Written out.old at (Listing·digit value ∷ []) out.new result }
{
    byte(out, at, b'0' + value as u8)
}

// A number in decimal.
fn number(out: &mut [u8], at: usize, value: usize) -> usize
    requires at_in_bounds { at + 3 ≤ length out.old }
    requires value_bound { value < 1000 }
    ensures { Written out.old at (decimal value) out.new result }
{
    if value < 10 {
        return digit(out, at, value);
    }
    if value < 100 {
        let ones = digit(out, at, value / 10);
        return digit(out, ones, value % 10);
    }
    let tens = digit(out, at, value / 100);
    let ones = digit(out, tens, value / 10 % 10);
    digit(out, ones, value % 10)
}

// A line at the start: a word and a number.
pub fn heading(out: &mut [u8], letters: &[u8], value: usize) -> usize
    requires letters_in_bounds { length letters.now + 4 ≤ length out.old }
    requires value_bound { value < 1000 }
    ensures { Written out.old 0 (word_line letters.now value) out.new result }
{
    let at = word(out, 0, letters);
    let end = number(out, at, value);
    byte(out, end, b'\n')
}

// A line of two numbers, with a space between them.
pub fn pair(out: &mut [u8], at: usize, first: usize, second: usize) -> usize
    requires at_in_bounds { at + 8 ≤ length out.old }
    requires first_bound { first < 1000 }
    requires second_bound { second < 1000 }
    ensures { Written out.old at (pair_line first second) out.new result }
{
    let space = number(out, at, first);
    let next = byte(out, space, b' ');
    let feed = number(out, next, second);
    byte(out, feed, b'\n')
}
