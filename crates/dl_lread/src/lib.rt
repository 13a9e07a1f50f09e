//! The reader of a ledger (BookKeeper documentation, "read last add confirmed", "read entry"): it asks the ensemble how many
//! entries can be read, and the write set of an entry for its bytes. It keeps no list of what it heard: it stands for that list.
#![tactic(auto)]

mod answers;
pub mod got;
pub mod reader;
mod stage;
