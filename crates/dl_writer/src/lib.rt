//! The writer of a log segment (DistributedLog documentation, "Log writer"): it packs records into entries, sends the entries to the
//! segment's ledger, tells which rows are confirmed, and makes what was confirmed readable by a control entry. It keeps no list
//! of what it was given: it stands for that list.
#![tactic(auto)]

pub mod acked;
mod draft;
mod going;
mod mode;
mod refusing;
mod sending;
pub mod sent;
mod taken;
pub mod write_fault;
pub mod writer;
pub mod writer_state;
