//! The sessions of clients with the metadata node, and the numbers of the requests that ran in them.
#![tactic(auto)]

pub mod admit;
pub mod laws;
pub mod sessions;
