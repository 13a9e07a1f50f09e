//! All letters ever sent in a world, in the order of sending, and which of them were delivered. Each link numbers its letters
//! from 1. Files of places, by links and by receivers, find a letter by its number, and the first that waits for a receiver,
//! without a walk over the letters.
#![tactic(auto)]

pub mod file;
mod filed;
mod files;
pub mod laws;
pub mod links;
pub mod mail;
