//! `paint`, which tells what each node of a stream has of what a coat says of the input's vertices:
//! `run` over the standard streams.
#![tactic(auto)]

mod coat;
mod fault;
mod help;
mod judging;
mod lines;
mod making;
mod obeying;
mod parts;
mod reading;
mod refused;
mod run;
mod said;
mod sizes;
mod words;

use pm_io::{StdSink, StdSource};
use std::env;
use std::process::ExitCode;

/// The answer for want of memory.
type OutOfMemory = std::alloc::AllocError;

fn main(rt: HostRuntime) -> ExitCode {
    let mut input = StdSource::new(rt.stdin());
    let mut out = StdSink::new(rt.stdout());
    let mut err = StdSink::new(rt.stderr());
    ExitCode::from(run::run(rt.alloc(), env::args(&rt), &mut input, &mut out, &mut err))
}
