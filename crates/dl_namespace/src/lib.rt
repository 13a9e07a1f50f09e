//! Streams by their names: their making and their removal (DistributedLog, namespaces). Each task keeps no list of what it
//! heard: it stands for that list.
#![tactic(auto)]

pub mod make;
mod make_answers;
mod make_stage;
pub mod remove;
mod remove_answers;
mod remove_stage;
