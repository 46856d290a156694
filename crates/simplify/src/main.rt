//! `simplify`, which makes a stream of a mesh and may keep its border: `answer` over the standard
//! streams.
#![tactic(auto)]

mod args;
mod help;
mod run;
mod words;

use args::answer;
use pm_io::{StdSink, StdSource};
use std::env;
use std::process::ExitCode;

fn main(rt: HostRuntime) -> ExitCode {
    let mut input = StdSource::new(rt.stdin());
    let mut out = StdSink::new(rt.stdout());
    let mut err = StdSink::new(rt.stderr());
    ExitCode::from(answer(rt.alloc(), env::args(&rt), &mut input, &mut out, &mut err))
}
