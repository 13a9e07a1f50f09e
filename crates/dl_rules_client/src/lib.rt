//! The rules of a client, apart from any code: what it does with a line of the schedule or a
//! letter, as a fold over all that it took.
#![tactic(auto)]

pub mod laws;
