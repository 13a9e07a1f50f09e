//! Recovery open of a ledger (BookKeeper documentation, "ledger recovery"; DistributedLog recovers the last segment of a stream so):
//! it marks the ledger's node, fences the ledger, reads on from the greatest confirmation, copies what it finds, and closes the
//! node at the first entry that enough fenced bookies deny. It keeps no list of what it heard: it stands for that list.
#![tactic(auto)]

mod answers;
pub mod ending;
mod finding;
mod locating;
pub mod outcome;
mod phase;
pub mod recovery;
mod stage;
pub mod target;
