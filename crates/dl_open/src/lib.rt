//! The orders of a stream's owner that are made of several tasks: the recovery of a stream, and its opening for a writer. Each keeps no
//! list of what it heard: it stands for that list.
#![tactic(auto)]

pub mod found;
mod given;
mod new_log;
pub mod new_writer;
mod next_segment;
pub mod open;
mod open_answers;
mod open_stage;
mod open_step;
pub mod open_turn;
mod parts;
pub mod recover;
mod recover_answers;
mod recover_stage;
mod recover_step;
mod versions;
