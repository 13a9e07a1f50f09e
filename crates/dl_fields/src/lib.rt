//! Readers and writers of the fields of layouts of bytes: numbers, runs of bytes behind their lengths, codes of closed
//! lists, flags, lists, digits and paths, and the laws by which bytes are read exactly as they are spelt.
#![tactic(auto)]

pub mod code;
pub mod digits;
pub mod fault;
pub mod flag;
pub mod items;
pub mod laws;
pub mod number;
pub mod path;
pub mod run;
pub mod size;
pub mod stop;
pub mod write;
