//! What a client shows of itself and sends: laws on definitions, with no code.
#![tactic(auto)]

pub mod laws;
