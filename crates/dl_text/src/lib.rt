//! Readers and printers of the fields of lines, and the laws by which a line is read exactly as it is spelt.
#![tactic(auto)]

pub mod field;
pub mod hex;
pub mod laws;
pub mod line;
pub mod name;
pub mod number;
pub mod payloads;
pub mod place;
pub mod refusal_word;
pub mod stop;
pub mod word;
