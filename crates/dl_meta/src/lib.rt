//! The metadata node: requests of sessions run on the versioned tree, each one batch of its journal.
#![tactic(auto)]

mod change;
mod first_tree;
mod frame;
pub mod laws;
mod load;
mod make;
pub mod meta_fault;
mod read;
mod replay;
pub mod store;
