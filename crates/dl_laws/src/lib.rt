//! What holds of every run of the machine as a transcript shows it: laws on definitions, with no code.
#![tactic(auto)]

pub mod laws;
