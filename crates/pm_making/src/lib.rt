//! Making in memory: of the bytes of an OBJ text those that the programs write of it, and streams
//! packed and unpacked.
#![tactic(auto)]

mod building;
mod fail;
mod gathered;
mod made;
mod packing;
mod preparing;
mod stepwise;

pub use building::{build, simplify};
pub use fail::{BuildFail, PrepareFail, text_cause_of};
pub use made::Made;
pub use packing::{pack, unpack, unpack_first};
pub use preparing::prepare;
pub use stepwise::{begin, finish};
