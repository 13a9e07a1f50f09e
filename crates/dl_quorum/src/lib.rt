//! Which bookies an entry goes to, and what their answers decide: write sets, ack quorums, denials and covers on sets of
//! ensemble places.
#![tactic(auto)]

pub mod laws;
pub mod place_set;
pub mod placement;
