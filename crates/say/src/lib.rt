// The lines that the programs print, and the numbers of the papers for what the calls answer.
#![tactic(auto)]

ghost use Rattle.std.specs.Prelude.{◌≡◌, ℕ};
ghost use Rattle.model.specs.Answers.{number};

use model::answer::{Refusal, Verdict};
use std::io;

// A size, without the end of a line.
pub fn size(rt: &impl Print, rows: usize, columns: usize) -> io::Result<()> {
    print!(rt; "a = {rows}, b = {columns}")
}

// The end of a line.
pub fn end(rt: &impl Print) -> io::Result<()> {
    println!(rt)
}

// What was done, the number that came of it, and a line feed.
pub fn number(rt: &impl Print, what: &str, value: usize) -> io::Result<()> {
    println!(rt; "{what}: {value}")
}

// The same for a status.
pub fn status(rt: &impl Print, what: &str, value: u32) -> io::Result<()> {
    number(rt, what, value as usize)
}

// Why a call is refused, as one of the numbers of the papers: a `Refusal`, or the number itself.
pub trait Reason: Copy {
    ghost code_of: { Self → ℕ };

    // That number.
    fn code(self) -> u32
        ensures { result ≡ code_of self };
}

impl Reason for Refusal {
    ghost code_of = { number };

    fn code(self) -> u32 {
        self.number()
    }
}

impl Reason for u32 {
    ghost code_of = { λ code. code };

    fn code(self) -> u32 {
        self
    }
}

// The same for a call that answers nothing of which a number tells: 0, or the number of its refusal.
pub fn answer<T: Copy, R: Reason>(
    rt: &impl Print,
    what: &str,
    answer: Result<T, R>,
) -> io::Result<()> {
    match answer {
        Ok(_) => status(rt, what, 0),
        Err(reason) => status(rt, what, reason.code()),
    }
}

// The same for what check answers: 0 for sealed, 64 for not sealed, or the number of a refusal.
pub fn checked<R: Reason>(
    rt: &impl Print,
    what: &str,
    sealed: Result<Option<usize>, R>,
) -> io::Result<()> {
    if let Ok(Some(_)) = sealed {
        return status(rt, what, 64);
    }
    answer(rt, what, sealed)
}

// The same for what plan and rebuild answer: 0 for repairs, 6 for a fatal loss, or the number of a refusal.
pub fn outcome<R: Reason>(
    rt: &impl Print,
    what: &str,
    found: Result<Verdict, R>,
) -> io::Result<()> {
    if let Ok(Verdict::Fatal { .. }) = found {
        return status(rt, what, 6);
    }
    answer(rt, what, found)
}
