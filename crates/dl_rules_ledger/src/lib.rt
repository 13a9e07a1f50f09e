//! The rules of a ledger's writer, apart from any code: what it has sent and who has acknowledged it, by the calls that it
//! was given, and the laws of these definitions.
#![tactic(auto)]

pub mod laws;
pub mod window;
