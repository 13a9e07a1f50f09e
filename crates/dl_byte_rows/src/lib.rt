//! Tests of bytes: of entries, messages, nodes of the tree and items, as rows of text. A crate with tests is proved twice, so they stand here, above all
//! that they test.
#![tactic(auto)]

#[cfg(test)]
mod formats;
#[cfg(test)]
mod items;
#[cfg(test)]
mod messages;
#[cfg(test)]
mod records;
#[cfg(test)]
mod tree_messages;
