//! Shows that a caller can hold a ledger's writer: a client in small, which keeps a writer and a view of its own. What it
//! owes for the writer is one line of its proof. It is no part of the product.
#![tactic(auto)]

pub mod holder;
