//! The nodes of the metadata tree that the log uses: their paths, and the layouts of their bytes.
#![tactic(auto)]

pub mod allocation;
pub mod children;
pub mod conf;
pub mod cut;
pub mod decode;
pub mod encode;
pub mod fault;
mod fields;
pub mod laws;
pub mod ledger;
pub mod maxseq;
mod node;
pub mod paths;
pub mod segment;
pub mod segment_name;
