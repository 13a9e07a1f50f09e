//! Journals: batches of bytes behind gates in a file of a depot. A batch is in force once its gate is open, and a stop at
//! any moment leaves the batches before, or those and the new one.
#![tactic(auto)]

pub mod batch;
pub mod commit_fault;
pub mod journal;
pub mod laws;
pub mod layout;
pub mod load;
pub mod load_fault;
pub mod parse;
pub mod write_through;
