//! Readings of texts and bytes, whatever their faults are: one behind another, and what a function that reads gives. The
//! readers of lines, of fields and of entries stand on them.
#![tactic(auto)]

pub mod laws;
