//! What a transcript has shown of its streams and clients, kept in tables by which each further event is judged.
#![tactic(auto)]

pub mod growth;
pub mod records;
pub mod rows;
pub mod sessions;
pub mod stream;
