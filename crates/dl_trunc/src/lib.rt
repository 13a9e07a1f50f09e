//! Cutting off the front of a stream (DistributedLog documentation, "Truncation"): one task moves the stream's point up, another
//! deletes the segments below it with their ledgers. Each keeps no list of what it heard: it stands for that list.
#![tactic(auto)]

pub mod purge;
mod purge_answers;
mod purge_stage;
pub mod truncate;
mod truncate_answers;
mod truncate_stage;
