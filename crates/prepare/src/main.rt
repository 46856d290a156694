//! `prepare` makes any OBJ, STL or PLY file fit to become an oriented manifold: `run` over the
//! standard streams.
#![tactic(auto)]

mod help;
mod run;
mod say;
mod words;

use pm_io::{StdSink, StdSource};
use std::env;
use std::process::ExitCode;

fn main(rt: HostRuntime) -> ExitCode {
    let mut input = StdSource::new(rt.stdin());
    let mut out = StdSink::new(rt.stdout());
    let mut err = StdSink::new(rt.stderr());
    ExitCode::from(run::run(rt.alloc(), env::args(&rt), &mut input, &mut out, &mut err))
}
