//! What storage nodes keep of what they were told and have answered, over all that can happen to them, failing devices included: what
//! is promised is stored, and fences last.
#![tactic(auto)]

pub mod laws;
