//! Reading the lines of a transcript: one event a line, and one spelling an event.
#![tactic(auto)]

mod address;
mod field;
mod form;
pub mod laws;
pub mod parse;
mod path;
mod refusal;
mod row;
mod txid_word;
