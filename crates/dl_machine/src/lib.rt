//! The machine, apart from any code: its state, its atomic steps, each line of a schedule as a list
//! of atomic steps, a run as their fold, and a replay from the bytes of a schedule to those of its
//! transcript.
#![tactic(auto)]

pub mod laws;
pub mod limits;
