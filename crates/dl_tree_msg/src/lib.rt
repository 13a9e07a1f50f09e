//! Requests on the metadata tree and the answers to them: their bytes, both ways, and how many there are.
#![tactic(auto)]

pub mod answer;
mod answer_kind;
mod items;
pub mod laws;
mod op_kind;
pub mod request;
pub mod rule;
mod version;
