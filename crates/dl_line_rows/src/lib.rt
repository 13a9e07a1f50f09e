//! Tests of lines: of schedules and of transcripts, as rows of text. A crate with tests is proved twice, so they stand here, above all
//! that they test.
#![tactic(auto)]

#[cfg(test)]
mod schedule;
#[cfg(test)]
mod text;
#[cfg(test)]
mod transcript;
