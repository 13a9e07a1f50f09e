//! The writer of a ledger (BookKeeper documentation, "the ledger writer"): it numbers entries, tells them to their write
//! sets, counts the acknowledgements, and knows how many of the first entries are confirmed. It keeps no list of what it
//! heard: it stands for that list.
#![tactic(auto)]

mod acknowledge;
pub mod send_fault;
mod sending;
pub mod writer;
