//! The recovery of a segment in progress (DistributedLog documentation, "Log segments"; it completes the last segment of a
//! stream that its writer has left): the segment's ledger is recovered and closed, its last entry tells how many rows the
//! segment has and its last transaction id, and the node of the segment in progress gives way to that of the completed one. It
//! keeps no list of what it heard: it stands for that list.
#![tactic(auto)]

mod answers;
mod given;
mod last_entry;
pub mod recovered;
pub mod segment_recovery;
pub mod stage;
