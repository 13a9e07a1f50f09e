//! What the storage nodes of the machine keep, over every list of its atomic steps, where its clients promise nothing but what they
//! may: what is promised is stored, and fences last.
#![tactic(auto)]

pub mod laws;
