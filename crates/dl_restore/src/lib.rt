//! The tables of a storage node from the batches of its journal: in one pass over the items each is checked and counted into the
//! tables.
#![tactic(auto)]

mod count;
mod entries;
pub mod fault;
mod ledgers;
pub mod restore;
