//! A range coder: a list of choices as bytes, by how likely each was, and back.
#![tactic(auto)]

mod coder;
mod decoder;
mod encoder;
mod guesses;
mod halving;
mod interval;
mod numbers;
mod predictor;
mod slot;
mod theory;

pub use coder::{Coder, Fault};
pub use decoder::{Cut, Decoder};
pub use encoder::{Encoder, OutOfMemory};
pub use guesses::guess_below;
pub use halving::uniform;
pub use numbers::guess_number;
pub use predictor::{Predictor, guess};
pub use slot::{NEW_SLOT, slot_learned, slot_share};
pub use theory::{codes_are_read_back, guesses_are_read_back, values_are_read_back};
