//! What a load finds in a file that a stop or damage has left.

use super::telling::{tell, tell_numbers};
use super::world::file;
use dl_bookie::bookie::Bookie;
use dl_bookie::load_fault::LoadFault;
use dl_depot::depot::Depot;
use dl_depot::fuse::Outcome;
use dl_depot::memory::MemDepot;
use dl_depot::stopper::Stopper;
use dl_text::field::put_bytes;
use dl_text::number::put_number;
use dl_types::memory::NoMemory;
use std::alloc::Global;
use std::test::Fail;

/// The first broken place of the node's file, if a load finds one.
fn broken_place(alloc: Global, depot: &mut MemDepot) -> Result<Option<u64>, Fail> {
    match Bookie::load(alloc, depot, file()) {
        Ok(_node) => Ok(None),
        Err(LoadFault::Damaged(at)) => Ok(Some(at)),
        Err(fault) => Err(Fail::from(fault)),
    }
}

/// The first broken place of a file of these bytes, if a load finds one.
fn broken_in(alloc: Global, bytes: &[u8]) -> Result<Option<u64>, Fail> {
    let mut depot = MemDepot::new(alloc)?;
    depot.write_at(file(), 0, bytes)?;
    broken_place(alloc, &mut depot)
}

/// Tells what a load finds.
fn tell_found(out: &mut Vec<u8>, found: Option<u64>) -> Result<(), NoMemory> {
    match found {
        Some(at) => tell_numbers(out, "damaged", &[at]),
        None => tell(out, "loads"),
    }
}

/// Tells what a load of a file of these bytes finds.
pub fn tell_load(alloc: Global, out: &mut Vec<u8>, bytes: &[u8]) -> Result<(), Fail> {
    let found = broken_in(alloc, bytes)?;
    tell_found(out, found)?;
    Ok(())
}

/// Tells whether a node is made where its file stops, and what a load of the file then finds.
pub fn tell_make(
    alloc: Global,
    out: &mut Vec<u8>,
    calls: u64,
    outcome: Outcome,
) -> Result<(), Fail> {
    let mut depot = MemDepot::new(alloc)?;
    depot.fuse(file(), calls, outcome);
    let is_made = Bookie::make(alloc, &mut depot, file()).is_ok();
    tell(out, if is_made { "made" } else { "fault" })?;
    depot.revive(file());
    let found = broken_place(alloc, &mut depot)?;
    tell_found(out, found)?;
    Ok(())
}

/// What loads have found, the same each time and so often in a row.
#[derive(Drop)]
struct Run {
    found: Option<u64>,
    count: u64,
}

impl Run {
    /// Nothing yet.
    fn new() -> Run {
        Run {
            found: None,
            count: 0,
        }
    }

    /// Tells what was found and how often, as `PLACE*COUNT` or `loads*COUNT`.
    fn tell(&self, out: &mut Vec<u8>) -> Result<(), NoMemory> {
        if self.count == 0 {
            return Ok(());
        }
        match self.found {
            Some(at) => put_number(out, b'*', at)?,
            None => put_bytes(out, b'*', "loads".as_bytes())?,
        }
        put_number(out, b' ', self.count)
    }

    /// Counts what one more load has found. If it is something else, what was found before is told.
    fn note(&mut self, out: &mut Vec<u8>, found: Option<u64>) -> Result<(), NoMemory> {
        if self.found != found {
            self.tell(out)?;
            self.found = found;
            self.count = 0;
        }
        self.count = self.count.saturating_add(1);
        Ok(())
    }
}

/// Tells what loads find in a file of these bytes with bits of one byte turned, for each byte in order.
pub fn tell_turned(
    alloc: Global,
    out: &mut Vec<u8>,
    bytes: &mut [u8],
    bits: u8,
) -> Result<(), Fail> {
    let mut run = Run::new();
    for place in 0..bytes.len() {
        bytes[place] ^= bits;
        let found = broken_in(alloc, bytes)?;
        bytes[place] ^= bits;
        run.note(out, found)?;
    }
    run.tell(out)?;
    Ok(())
}

/// Tells what loads find in the first bytes of a file, from none to all but one.
pub fn tell_cuts(alloc: Global, out: &mut Vec<u8>, bytes: &[u8]) -> Result<(), Fail> {
    let mut run = Run::new();
    for count in 0..bytes.len() {
        let found = broken_in(alloc, &bytes[..count])?;
        run.note(out, found)?;
    }
    run.tell(out)?;
    Ok(())
}
