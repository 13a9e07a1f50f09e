//! Rows of a storage node: what becomes of each message, commit and load. It is no part of the product.
#![tactic(auto)]

#[cfg(test)]
mod tests;
