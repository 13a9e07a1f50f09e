//! Tests of the values and the devices that all crates stand on, as rows of text. A crate with tests is proved twice, so they stand here, above all
//! that they test.
#![tactic(auto)]

#[cfg(test)]
mod codec;
#[cfg(test)]
mod depot;
#[cfg(test)]
mod fields;
#[cfg(test)]
mod journal;
#[cfg(test)]
mod pool;
#[cfg(test)]
mod quorum;
#[cfg(test)]
mod session;
#[cfg(test)]
mod streams;
#[cfg(test)]
mod types;
