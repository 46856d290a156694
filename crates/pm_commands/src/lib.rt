//! The commands of the programs: what each of them does with its devices, how it ends, and what is
//! said then.
#![tactic(auto)]

mod arguments;
mod asked;
mod build;
mod commands;
mod dispatch;
mod fault;
mod hierarchy;
mod line;
mod outcomes;
mod owned;
mod said;
mod simplify;
mod starting;
mod stepwise;
mod summary;
mod surface;

pub use arguments::words_after_name;
pub use asked::{Asked, Border};
pub use dispatch::obey;
pub use fault::{CommandFail, Fault, InputFail};
pub use outcomes::outcomes_are_sound;
pub use said::{say, tell};
pub use starting::start;
pub use stepwise::Simplifying;
