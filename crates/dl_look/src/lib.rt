//! A look at a stream: what the answer told of its segments and its nodes, or why the order that looked is refused.
#![tactic(auto)]

pub mod look;
pub mod looked;
