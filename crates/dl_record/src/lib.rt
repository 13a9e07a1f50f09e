//! The entries of a log segment: stored records as bytes, what is read of them, and the walk over their rows.
#![tactic(auto)]

pub mod builder;
pub mod check;
mod cursor;
pub mod decode;
pub mod encode;
pub mod entry_fault;
pub mod entry_flaw;
mod fields;
mod head;
mod kind;
pub mod laws;
pub mod limits;
pub mod records;
mod sets;
pub mod shared_row;
mod step;
pub mod stored;
pub mod user_row;
pub mod walk;
