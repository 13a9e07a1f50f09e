//! Tests of the letters of a world. A crate with tests is proved twice, so they stand here, above what they test.
#![tactic(auto)]

#[cfg(test)]
mod links;
