//! The items that a storage node makes durable, to code: what each has beside the bytes of its entry, and the writing and reading of
//! its bytes.
#![tactic(auto)]

pub mod body;
pub mod head;
mod kind;
pub mod put;
pub mod read;
