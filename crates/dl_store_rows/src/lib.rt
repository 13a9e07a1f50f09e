//! Tests of the metadata node and the storage node, as rows of text. A crate with tests is proved twice, so they stand here, above all
//! that they test.
#![tactic(auto)]

#[cfg(test)]
mod bookie;
#[cfg(test)]
mod meta;
#[cfg(test)]
mod restore;
