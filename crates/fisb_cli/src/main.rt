//! The program: runs the command that its words name, over standard input and standard output, and ends
//! with the number of how the run ended.
#![tactic(auto)]

mod ending;

use ending::run_args;
use fisb_wire::{StdSink, StdSource};
use std::env;
use std::process::ExitCode;

fn main(rt: HostRuntime) -> ExitCode {
    let mut source = StdSource::new(rt.stdin());
    let mut sink = StdSink::new(rt.stdout());
    ExitCode::from(run_args(rt.alloc(), env::args(&rt), &mut source, &mut sink))
}

#[cfg(test)]
mod tests;
