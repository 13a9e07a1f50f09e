//! The metadata tree: nodes with bytes, versions, owners and counters at paths, and the operations on them.
#![tactic(auto)]

mod fault;
pub mod laws;
pub mod node;
mod nodes;
mod one;
mod paths;
mod run;
#[cfg(test)]
mod tests;
pub mod tree;
