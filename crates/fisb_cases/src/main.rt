//! Runs each case of a file over ends in memory, and prints its name, its output and its status.
//! The head of the file `stdin` says how a case is written.
#![tactic(auto)]

mod case;
mod printing;
mod script;

use case::add_case;
use std::io;
use std::io::Write;

fn main(rt: HostRuntime) -> io::Result<()> {
    let alloc = rt.alloc();
    let file = io::read_to_string(alloc, rt.stdin())?;
    let text = file.as_str();
    let mut out = rt.stdout();
    for part in text
        .strip_suffix('\n')
        .unwrap_or(text)
        .split("\n\n== ")
        .skip(1)
    {
        let mut printed = Vec::new(alloc);
        add_case(alloc, part, &mut printed)?;
        out.write_all(printed.as_slice())?;
    }
    Ok(())
}
