//! The lock of a stream (ZooKeeper recipes, "Locks"; DistributedLog, the distributed lock): a client makes a member of its own
//! below the stream's node `lock`, and owns the stream where no other member has a lesser number. The task keeps no list of what
//! it heard: it stands for that list.
#![tactic(auto)]

mod answers;
pub mod lock;
mod names;
pub mod stage;
