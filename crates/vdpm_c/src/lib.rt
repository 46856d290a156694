//! The viewer, the builder and the slots of a buffer for C: a thin layer of exported functions over
//! `pm_viewer`, `pm_making` and `pm_buffers`. `libvdpm.h` tells of each to its callers.
#![tactic(auto)]

mod buffer_slot;
mod buffers;
mod changes;
mod exports;
mod fits;
mod holding;
mod inputs;
mod inside;
mod laws;
mod looking;
mod loose;
mod made;
mod made_slot;
mod making;
mod means;
mod measuring;
mod nodes;
mod packing;
mod run_slot;
mod scale;
mod slot;
mod statuses;
mod stepwise;
mod tables;
mod version;
