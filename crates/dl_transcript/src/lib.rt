//! The events of a transcript, their one spelling, and when a transcript is legal.
#![tactic(auto)]

pub mod event;
pub mod laws;
pub mod print;
pub mod verb;
