//! A storage node (BookKeeper documentation, "Bookies"): it keeps the entries of ledgers in a journal, and says of nothing that it
//! is stored before a commit made it durable.
#![tactic(auto)]

pub mod batch;
pub mod bookie;
mod filling;
pub mod load_fault;
pub mod look_fault;
pub mod queued;
mod reading;
mod releasing;
pub mod replies;
pub mod row;
mod settling;
pub mod taken;
