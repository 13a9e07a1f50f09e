//! The reader of a stream (DistributedLog documentation, "Log reader"): it lists the segments, and reads them from its cursor on
//! until it has as many rows as it may give. It keeps no list of what it heard: it stands for that list.
#![tactic(auto)]

mod entries;
mod gathered;
mod given;
mod hearing;
mod ledgers;
mod listing;
mod position;
pub mod reader;
mod reading;
mod segments;
mod span;
mod stage;
mod step;
mod walk;
