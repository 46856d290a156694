//! Tests of libraries by public calls alone, a module for each crate. What the programs answer is
//! told by the cases of tests/, so that these have only what no output shows.
#![tactic(auto)]

#[cfg(test)]
mod base;
#[cfg(test)]
mod bounds;
#[cfg(test)]
mod coder;
#[cfg(test)]
mod devices;
#[cfg(test)]
mod fit;
#[cfg(test)]
mod fits;
#[cfg(test)]
mod floats;
#[cfg(test)]
mod forest;
#[cfg(test)]
mod fronts;
#[cfg(test)]
mod grid;
#[cfg(test)]
mod io;
#[cfg(test)]
mod links;
#[cfg(test)]
mod quadric;
#[cfg(test)]
mod queue;
#[cfg(test)]
mod sets;
#[cfg(test)]
mod shrink;
#[cfg(test)]
mod twins;
#[cfg(test)]
mod view;
