//! What a client does as it takes a line or a letter: the letters that it sends, the events that it shows, the entry that it sent,
//! what its writer has confirmed, and how many records were taken.
#![tactic(auto)]

pub mod acts;
pub mod asked;
pub mod confirmed;
pub mod front;
pub mod parts;
pub mod records;
pub mod sent_entry;
