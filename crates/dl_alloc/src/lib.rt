//! The allocation of a ledger for the next segment of a stream (DistributedLog, the ledger allocator): a ledger is made, and
//! then named by the stream's node `alloc` in place of one that an earlier owner left there, which is deleted. The task keeps
//! no list of what it heard: it stands for that list.
#![tactic(auto)]

pub mod allocation;
mod answers;
mod given;
pub mod stage;
