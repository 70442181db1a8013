// Cases 10 and 11 of paper 01, and the like where rows and columns differ, executed through the library's calls: one line for each
// outcome.
#![tactic(auto)]

mod largest;
mod refusals;

use std::io;

fn main(rt: HostRuntime) -> io::Result<()> {
    refusals::run(&rt)?;
    largest::run(&rt)
}
