//! What the tasks over a ledger share: the place of a bookie in the ledger's ensemble, the messages for an entry's write set or
//! for the whole ensemble, and sets of places that stand for the bookies that have answered.
#![tactic(auto)]

pub mod places;
pub mod subject;
pub mod telling;
