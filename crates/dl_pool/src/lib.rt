//! A pool of pages that are taken once, so that pieces of bytes come and go without taking memory.
#![tactic(auto)]

mod pages;
pub mod parts;
pub mod pool;
pub mod pool_full;
pub mod span;

pub use pages::{PAGE, pages_of};
