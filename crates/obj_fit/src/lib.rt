//! Any OBJ, STL or PLY file made fit: the mesh of it that is an oriented manifold on the grid, the
//! line that tells how places lead back, and what is said of the work.
#![tactic(auto)]

mod account;
mod changes;
mod counts;
mod fault;
mod fine;
mod laying;
mod lines;
mod making;
mod notes;
mod outcomes;
mod reason;
mod rounded;
mod scale;
mod text;
mod thin;
mod warning;
mod writing;

pub use fault::{Fault, InputFail};
pub use making::{Made, make};
pub use outcomes::outcomes_are_sound;
pub use scale::{Decimal, Scale};
pub use writing::write_made;
