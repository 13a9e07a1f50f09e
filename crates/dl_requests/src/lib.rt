//! What the tasks over the metadata tree share: the requests of a stream's orders as operations on the tree, and what an
//! answer that failed means for an order.
#![tactic(auto)]

pub mod beginnings;
mod build;
pub mod cuts;
pub mod ledger_nodes;
pub mod ledgers;
pub mod listing;
pub mod looks;
pub mod members;
pub mod moves;
pub mod nodes;
pub mod numbers;
pub mod refusals;
pub mod segment_end;
pub mod segments;
pub mod streams;
