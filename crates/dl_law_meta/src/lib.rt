//! What the requests of the orders do to the metadata tree, and what stays over the items of the metadata node: laws on
//! definitions, with no code.
#![tactic(auto)]

pub mod laws;
