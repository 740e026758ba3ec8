// Document 01's worked examples on elements, points and fixing, run through the code: a line for each, its name and the words
// that the code gives.
#![tactic(auto)]

mod elements;
mod fixed;
mod points;

use std::io;

fn main(rt: HostRuntime) -> io::Result<()> {
    elements::run(&rt)?;
    points::run(&rt)?;
    fixed::run(&rt)
}
