//! The lines of a schedule: one step a line, and one spelling a step.
#![tactic(auto)]

pub mod early;
mod field;
mod form;
pub mod laws;
pub mod node;
mod opening;
pub mod parse;
pub mod print;
pub mod step;
pub mod up_to;
mod words;
