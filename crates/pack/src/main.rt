//! `pack`, which packs a stream text, or with `--unpack` unpacks one: `run` over the standard
//! streams.
#![tactic(auto)]

mod fault;
mod help;
mod making;
mod obeying;
mod run;
mod said;
mod words;

use pm_io::{StdSink, StdSource};
use std::env;
use std::process::ExitCode;

fn main(rt: HostRuntime) -> ExitCode {
    let mut input = StdSource::new(rt.stdin());
    let mut out = StdSink::new(rt.stdout());
    let mut err = StdSink::new(rt.stderr());
    ExitCode::from(run::run(rt.alloc(), env::args(&rt), &mut input, &mut out, &mut err))
}
