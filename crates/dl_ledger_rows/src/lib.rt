//! Tests of the tasks over ledgers, and the writer, the recovery and the reader of a stream over them, as rows of text. A crate with tests is proved twice, so they stand here, above all
//! that they test.
#![tactic(auto)]

#[cfg(test)]
mod lread;
#[cfg(test)]
mod lrecover;
#[cfg(test)]
mod lwrite;
#[cfg(test)]
mod lwrite_held;
#[cfg(test)]
mod reader;
#[cfg(test)]
mod segrecover;
#[cfg(test)]
mod writer;
