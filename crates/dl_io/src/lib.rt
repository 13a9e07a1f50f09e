//! Where bytes come from and go to: sources and sinks that count their faults, over memory and over the standard
//! streams, a writer of whole texts, and the line that a program notes when it ends badly.
#![tactic(auto)]

pub mod memory;
pub mod notes;
pub mod standard;
pub mod traits;
pub mod whole;
