ghost use Rattle.std.specs.Prelude.{◌≡◌, ◌≤◌, ◌<◌, ◌+◌, ◌-◌, ◌^◌, ◌↔◌, length, take, drop, IsTrue, IfOk};
ghost use Rattle.dl_journal.specs.Limits.{journal_limit, number_size, head_size};
ghost use Rattle.dl_journal.specs.Batches.{magic};
ghost use Rattle.dl_journal.specs.Reading.{number_of, size_of, is_due, ReadsBatch};
ghost use Rattle.dl_journal.specs.Parsed.{Parses};

use crate::batch::Batch;
use crate::layout::{AROUND, GATE, HEAD, LAST_NUMBER, MAGIC, NUMBER, START};
use crate::load_fault::LoadFault;
use byteorder::{BigEndian, ByteOrder};
use bytes::Bytes;
use dl_types::body::Body;
use dl_types::memory::NoMemory;
use std::alloc::Global;

/// What a journal's bytes hold: the batches in force, the place of the shut gate, and the number of the next batch.
#[derive(Drop)]
pub struct Contents {
    /// The batches in force, in order.
    pub batches: Vec<Batch>,
    /// The place of the first gate that is not open.
    pub gate: u64,
    /// The number of the next batch.
    pub next: u64,
}

fn has_magic(bytes: &[u8]) -> bool
    ensures { IsTrue result ↔ (take (length magic) bytes.now ≡ magic) }
{
    bytes.len() >= MAGIC && bytes[..MAGIC] == START[..MAGIC]
}

#[tactic(auto, unfolding(crate::specs::Reading::number_of))]
fn number_in(more: &[u8]) -> u64
    requires { number_size ≤ length more.now }
    ensures { result ≡ number_of more.now }
{
    BigEndian::read_u64(more)
}

#[tactic(auto, unfolding(crate::specs::Reading::size_of))]
fn size_in(more: &[u8]) -> u32
    requires { head_size ≤ length more.now }
    ensures { result ≡ size_of more.now }
{
    BigEndian::read_u32(&more[NUMBER..])
}

fn is_due(due: Option<u64>, number: u64) -> bool
    ensures { result ≡ is_due due number }
{
    match due {
        Some(due) => number == due && number <= LAST_NUMBER,
        None => number <= LAST_NUMBER,
    }
}

// The body at a span of the bytes of a file, which it shares.
fn body_at(shared: &Bytes, start: usize, end: usize) -> Result<Body, NoMemory>
    requires starts { start ≤ end }
    requires ends { end ≤ length shared.now }
    ensures { IfOk result (λ body. body ≡ take (end - start) (drop start shared.now)) }
{
    let body = shared.slice(start..end)?;
    Ok(Body::from_bytes(body))
}

// The batch behind an open gate, where the bytes behind it begin at a place of the file. Its body shares the file's bytes.
fn read_batch(shared: &Bytes, more: &[u8], at: usize, due: Option<u64>) -> Result<Batch, LoadFault>
    requires same { more.now ≡ drop at shared.now }
    requires fits { at < 2 ^ 32 }
    ensures { ReadsBatch due more.now at result }
{
    if more.len() < NUMBER {
        return Err(LoadFault::Damaged(at as u64));
    }
    let number = number_in(more);
    if !is_due(due, number) {
        return Err(LoadFault::Damaged(at as u64));
    }
    if more.len() < HEAD {
        return Err(LoadFault::Damaged((at + NUMBER) as u64));
    }
    let size = size_in(more) as usize;
    if more.len() - HEAD < size {
        return Err(LoadFault::Damaged((at + NUMBER) as u64));
    }
    let body = body_at(shared, at + HEAD, at + HEAD + size)?;
    Ok(Batch { number, body })
}

// What the bytes of a journal hold, which the bodies share.
fn contents_of(alloc: Global, shared: &Bytes, bytes: &[u8]) -> Result<Contents, LoadFault>
    requires same { bytes.now ≡ shared.now }
    requires fits { length bytes.now ≤ journal_limit }
    ensures { Parses bytes.now result }
{
    if !has_magic(bytes) {
        return Err(LoadFault::Damaged(0));
    }
    let mut batches = Vec::new(alloc);
    let mut due = None;
    let mut at = MAGIC;
    while at < bytes.len() && bytes[at] == 1 {
        let batch = read_batch(shared, &bytes[at + GATE..], at + GATE, due)?;
        at += AROUND + batch.body.len();
        due = Some(batch.number + 1);
        batches.push(batch)?;
    }
    if at == bytes.len() {
        return Err(LoadFault::Damaged(at as u64));
    }
    Ok(Contents {
        batches,
        gate: at as u64,
        next: due.unwrap_or(0),
    })
}

/// Reads the bytes of a journal, which it takes over: the bodies of the batches are pieces of them, and none is copied. `Damaged`
/// comes exactly where they break the layout, with the place of the first part that does: the magic, a number, a length or a
/// missing gate.
pub fn parse(alloc: Global, bytes: Vec<u8>) -> Result<Contents, LoadFault>
    requires { length bytes.items ≤ journal_limit }
    ensures { Parses bytes.items result }
{
    let shared = Bytes::from_vec(bytes)?;
    contents_of(alloc, &shared, shared.as_slice())
}
