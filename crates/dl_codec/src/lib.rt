//! Readers and writers of the fields that every layout of bytes is made of: whole numbers of 8 to 64 bits, the high byte
//! first.
#![tactic(auto)]

pub mod laws;
pub mod read;
pub mod short;
pub mod write;
