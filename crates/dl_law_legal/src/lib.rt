//! Transcripts that are legal as to some of their events: laws on definitions, with no code.
#![tactic(auto)]

pub mod laws;
