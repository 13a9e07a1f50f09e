//! The order with which a reader begins: it reads the stream's point.
#![tactic(auto)]

pub mod seek;
mod seek_answers;
mod seek_given;
mod seek_stage;
