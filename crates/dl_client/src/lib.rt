//! A client process (DistributedLog documentation, "Log writer" and "Log reader"): it takes lines of the schedule and letters, runs
//! one order at a time by the tasks, and numbers its requests to the metadata node. It keeps no list of what it took: it stands for
//! that list.
#![tactic(auto)]

pub mod client;
mod copies;
mod doing;
mod order;
mod tasks;
mod turns;
