//! Rows of the tasks over the metadata tree, each run against a metadata store. It is no part of the product.
#![tactic(auto)]

#[cfg(test)]
mod tests;
