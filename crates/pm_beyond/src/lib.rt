//! What stands beyond the sides of kept faces, which hierarchies are valid, and which moves a front
//! permits.
#![tactic(auto)]

mod moves;
mod theory;

pub use moves::MoveFault;
pub use theory::{
    answers_are_sound, closed_sets_are_sound, openings_are_sound, plans_are_sound,
    relinking_is_sound, walks_are_sound,
};
