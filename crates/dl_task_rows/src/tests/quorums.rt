//! Calls of quorums as rows, a line each. `QUORUM => ANSWER` says whether three numbers are a quorum, `QUORUM at ENTRY => PLACES` where an
//! entry is written, and `QUORUM of PLACES => COVERS` whether places cover.

use super::spelling::{cut, number_of};
use dl_quorum::place_set::PlaceSet;
use dl_quorum::placement::{covers, write_place};
use dl_types::memory::NoMemory;
use dl_types::quorum::Quorum;
use std::alloc::Global;

/// The number of a word below 256.
fn small(word: &str) -> u8 {
    (number_of(word) % 256) as u8
}

/// The places of an entry's copies.
fn places(alloc: Global, q: Quorum, entry: u64) -> Result<String, NoMemory> {
    let mut out = String::new(alloc);
    for i in 0..q.qw {
        let place = write_place(q, entry, i);
        write!(out, "{place} ")?;
    }
    Ok(out)
}

/// Whether these places cover.
fn covering(q: Quorum, words: &str) -> bool {
    let mut set = PlaceSet::empty();
    for word in words.split(' ') {
        set = set.with(small(word) % 16);
    }
    covers(q, set)
}

/// What a quorum answers to a question.
fn told(alloc: Global, q: Quorum, question: &str) -> Result<String, NoMemory> {
    let (word, rest) = cut(question);
    if word == "at" {
        places(alloc, q, number_of(rest))
    } else if word == "of" {
        let covers = covering(q, rest);
        Ok(format!(in alloc; "{covers}")?)
    } else {
        Ok(String::from_str(alloc, "quorum")?)
    }
}

/// Whether a row answers as it says.
fn row_holds(alloc: Global, row: &str) -> Result<bool, NoMemory> {
    let (call, wanted) = row.split_once(" => ").unwrap_or((row, ""));
    let (e, rest) = cut(call);
    let (qw, rest) = cut(rest);
    let (qa, question) = cut(rest);
    match Quorum::new(small(e), small(qw), small(qa)) {
        Ok(q) => Ok(told(alloc, q, question)?.as_str().trim() == wanted),
        Err(_) => Ok(wanted == "none"),
    }
}

/// The place of the first row that doesn't answer as it says.
pub fn first_wrong(alloc: Global, table: &str) -> Result<Option<usize>, NoMemory> {
    for (place, row) in table.lines().enumerate() {
        if !row_holds(alloc, row)? {
            return Ok(Some(place));
        }
    }
    Ok(None)
}
