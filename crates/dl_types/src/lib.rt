//! The values that every layer of the log names: places, transaction ids, rows, names, quorums and ensembles, refusals
//! and statuses, and the operations on the metadata tree with their answers.
#![tactic(auto)]

pub mod address;
pub mod bad_quorum;
pub mod body;
pub mod bookie;
pub mod client;
pub mod dir_fault;
pub mod dlsn;
pub mod ensemble;
pub mod entry_bytes;
pub mod limit;
pub mod line_fault;
pub mod list;
pub mod memory;
pub mod meta_answer;
pub mod meta_op;
pub mod mode;
pub mod name;
pub mod name_fault;
pub mod names;
pub mod one_answer;
pub mod one_answers;
pub mod one_op;
pub mod one_ops;
pub mod path;
pub mod payload;
pub mod payloads;
pub mod place;
pub mod quorum;
pub mod read_row;
pub mod refusal;
pub mod row;
pub mod session;
pub mod shared;
pub mod start;
pub mod status;
pub mod txid;
pub mod why;
pub mod word;
