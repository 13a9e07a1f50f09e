//! What a storage node keeps of each entry and of each ledger, so that it answers without a search of its items: two tables with
//! room from the start, and what an item that waits or became durable changes in them.
#![tactic(auto)]

pub mod entries;
pub mod keeping;
pub mod ledgers;
pub mod marks;
pub mod noting;
