ghost use Rattle.std.specs.Prelude.{◌≡◌, ◌+◌, ◌≤◌, ◌<◌, length, take, IfOk, IfErr, List, ℕ, None, Ok, ◌==◌};
ghost use Rattle.dl_record.specs.Reading.{Gives, members_at, set_at, content_at, record_at};
ghost use Rattle.dl_record.specs.Reading.{records_at, entry_at, behind_of, Refuses};
ghost use Rattle.dl_record.specs.declared.stored.Stored.{Stored};
ghost use Rattle.dl_record.specs.Grammar.{IsEntry, entry_bytes};

use crate::entry_fault::EntryFault;
use crate::head::{head_of, header_of};
use crate::kind::{Behind, Head, Kind};
use crate::limits::ENTRY_MAX;
use crate::records::Records;
use crate::sets::{member_end_of, set_count_of};
use crate::stored::Stored;
use dl_types::payload::Payload;
use dl_types::payloads::Payloads;
use std::alloc::Global;

/// The payloads of so many members, which end with the bytes.
fn members_of(
    alloc: Global,
    count: u16,
    bytes: &[u8],
    start: usize,
) -> Result<Vec<Payload>, EntryFault>
    ensures { Gives (λ payloads. payloads.items) result (members_at count bytes.now start) }
{
    let mut payloads = Vec::with_capacity(alloc, usize::from(count))?;
    let mut at = start;
    for _ in 0..count {
        let end = member_end_of(bytes, at)?;
        let payload = Payload::new(alloc, &bytes[at + 4..end])?;
        payloads.push(payload)?;
        at = end;
    }
    if at == bytes.len() {
        Ok(payloads)
    } else {
        Err(EntryFault::Long { at })
    }
}

/// The payloads of the record set that stands from a place on to the end of the bytes.
#[tactic(auto, unfolding(crate::specs::Reading::set_at))]
fn set_of(alloc: Global, bytes: &[u8], at: usize) -> Result<Payloads, EntryFault>
    ensures { Gives (λ payloads. payloads) result (set_at bytes.now at) }
{
    let count = set_count_of(bytes, at)?;
    let payloads = members_of(alloc, count, bytes, at + 4)?;
    Ok(Payloads::from_vec(payloads))
}

/// The stored record of these fields, whose payload begins at a place.
fn content_of(alloc: Global, head: &Head, bytes: &[u8], at: usize) -> Result<Stored, EntryFault>
    requires start { at ≤ head.now.end }
    requires end { head.now.end ≤ length bytes.now }
    ensures { Gives (λ stored. stored) result (content_at head.now bytes.now at) }
{
    let position = head.position;
    let txid = head.txid;
    match head.kind {
        Kind::Plain => {
            let payload = Payload::new(alloc, &bytes[at..head.end])?;
            Ok(Stored::Plain {
                position,
                txid,
                payload,
            })
        }
        Kind::Control => Ok(Stored::Control { position, txid }),
        Kind::Set => {
            let payloads = set_of(alloc, &bytes[..head.end], at)?;
            Ok(Stored::Set {
                position,
                txid,
                payloads,
            })
        }
    }
}

/// The stored record at a place, and where it ends.
#[tactic(auto, unfolding(crate::specs::Reading::record_at))]
fn record_of(
    alloc: Global,
    alone: bool,
    before: Option<Behind>,
    bytes: &[u8],
    at: usize,
) -> Result<(Stored, usize), EntryFault>
    requires { at ≤ length bytes.now }
    ensures exact { Gives (λ x. (x.0, x.1)) result (record_at alone before bytes.now at) }
    ensures room { IfOk result (λ x. x.1 ≤ length bytes.now) }
{
    let head = head_of(alone, before, bytes, at)?;
    let stored = content_of(alloc, &head, bytes, at + 20)?;
    Ok((stored, head.end))
}

/// What a stored record asks of the one behind it.
fn behind_of(stored: &Stored) -> Behind
    ensures { result ≡ behind_of stored.now }
{
    Behind {
        position: u64::from(stored.position()) + stored.rows() as u64,
        txid: stored.txid().number(),
    }
}

/// So many stored records behind the header, which end with the bytes.
fn records_of(alloc: Global, count: u16, bytes: &[u8]) -> Result<Vec<Stored>, EntryFault>
    requires { 8 ≤ length bytes.now }
    ensures { Gives (λ records. records.items) result
        (records_at count (count == 1) None bytes.now 8) }
{
    let mut records = Vec::new(alloc);
    let mut before = None;
    let mut at = 8;
    for _ in 0..count {
        let (stored, end) = record_of(alloc, count == 1, before, bytes, at)?;
        before = Some(behind_of(&stored));
        records.push(stored)?;
        at = end;
    }
    if at == bytes.len() {
        Ok(records)
    } else {
        Err(EntryFault::Long { at })
    }
}

/// The stored records of an entry, or its first flaw.
#[tactic(auto, unfolding(crate::specs::Reading::entry_at))]
fn entry_of(alloc: Global, bytes: &[u8]) -> Result<Records, EntryFault>
    ensures { Gives (λ records. records) result (entry_at bytes.now) }
{
    if bytes.len() > ENTRY_MAX {
        return Err(EntryFault::TooLong { at: 0 });
    }
    let count = header_of(bytes)?;
    let records = records_of(alloc, count, bytes)?;
    Ok(Records::from_vec(records))
}

/// The stored records of an entry. The fault is the first flaw in the order of the bytes, at the first byte of its field;
/// no bytes with a flaw are an entry.
pub fn decode_entry(alloc: Global, bytes: &[u8]) -> Result<Records, EntryFault>
    // What is read is an entry, and the bytes are its one spelling.
    ensures found { IfOk result (λ parts. IsEntry parts × (bytes.now ≡ entry_bytes parts)) }
    // What spells an entry is read, unless memory runs out.
    ensures only { (parts : List Stored) → IsEntry parts → bytes.now ≡ entry_bytes parts
        → Gives (λ x. x) result (Ok parts) }
    // The fault names the first flaw in the order of the bytes, and then they are no entry.
    ensures refused { IfErr result (Refuses bytes.now) }
{
    entry_of(alloc, bytes)
}
