//! Messages between clients, bookies and the metadata node: their types, their bytes, and what a task of a client hears
//! and answers.
#![tactic(auto)]

pub mod decode;
pub mod encode;
pub mod fault;
pub mod heard;
mod kind;
pub mod laws;
pub mod letter;
pub mod letters;
pub mod meta_reply;
pub mod msg;
pub mod resource;
pub mod size;
pub mod turn;
