//! The order that ends a writer: it closes the ledger, completes the segment, and leaves the lock.
#![tactic(auto)]

pub mod close;
mod close_answers;
mod close_given;
mod close_stage;
