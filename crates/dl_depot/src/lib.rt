//! Files that a stop may tear: the trait `Depot` with its meanings, and a depot in memory that tells them all.
#![tactic(auto)]

pub mod depot;
pub mod device_call;
pub mod device_fault;
pub mod file_id;
pub mod fuse;
pub mod laws;
pub mod log;
pub mod logged_call;
pub mod mem_file;
pub mod memory;
pub mod stopper;
