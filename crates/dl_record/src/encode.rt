ghost use Rattle.std.specs.Prelude.{◌≡◌, ◌<◌, ◌≤◌, ◌^◌, ◌++◌, ◌+◌, ◌-◌, length, take, drop, map, OnOk, OnErr, IfOk, All};
ghost use Rattle.std.specs.List.{flat_map};
ghost use Rattle.std.specs.Option.{SomeIff};
ghost use Rattle.std.specs.Int.{w8, w16, w32, w64};
ghost use Rattle.dl_codec.specs.Fields.{field};
ghost use Rattle.std.specs.Prelude.{[], ◌∷◌};
ghost use Rattle.dl_record.specs.declared.stored.Stored.TheVariants.{Control};
ghost use Rattle.dl_record.specs.Grammar.{member_bytes, set_bytes, fields_and_payload, header_bytes};
ghost use Rattle.dl_record.specs.Grammar.{record_bytes, entry_bytes, IsRecord, IsEntry};

use crate::limits::{ENTRY_MAX, MEMBERS_MAX, PAYLOAD_MAX};
use crate::stored::Stored;
use byteorder::{BigEndian, ByteOrder};
use dl_codec::write::{put_u8, put_u16, put_u32, put_u64};
use dl_types::entry_bytes::EntryBytes;
use dl_types::memory::NoMemory;
use dl_types::payload::Payload;
use dl_types::txid::TxId;
use std::alloc::Global;

/// The length of an entry's header.
pub(crate) const HEADER: usize = 8;

/// Adds the fields of a stored record: its position, its flags, its transaction id, and the length of what follows.
fn put_fields(
    alloc: Global,
    out: &mut Vec<u8>,
    position: u32,
    flags: u32,
    txid: TxId,
    size: u32,
) -> Result<(), NoMemory>
    ensures ok { OnOk result (out.new.items ≡ out.old.items
        ++ (field w32 position ++ (field w32 flags ++ (field w64 txid ++ field w32 size)))) }
    ensures err { OnErr result (take (length out.old.items) out.new.items ≡ out.old.items) }
{
    put_u32(alloc, out, position)?;
    put_u32(alloc, out, flags)?;
    put_u64(alloc, out, txid.number())?;
    put_u32(alloc, out, size)?;
    Ok(())
}

/// Adds a stored record with this payload.
#[tactic(auto, unfolding(crate::specs::Grammar::fields_and_payload))]
pub(crate) fn put_payload(
    alloc: Global,
    out: &mut Vec<u8>,
    position: u32,
    flags: u32,
    txid: TxId,
    payload: &[u8],
) -> Result<(), NoMemory>
    requires { length payload.now ≤ PAYLOAD_MAX }
    ensures ok { OnOk result (out.new.items ≡ out.old.items
        ++ fields_and_payload position flags txid payload.now) }
    ensures err { OnErr result (take (length out.old.items) out.new.items ≡ out.old.items) }
{
    put_fields(alloc, out, position, flags, txid, payload.len() as u32)?;
    out.extend_from_slice(payload)?;
    Ok(())
}

/// How many bytes the payload of a record set of these members has, or none where they are more than a stored record may
/// hold.
pub fn set_size(payloads: &[Payload]) -> Option<u32>
    ensures { SomeIff result (length (set_bytes payloads.now) ≤ PAYLOAD_MAX)
        (length (set_bytes payloads.now)) }
{
    let mut size = 4;
    for payload in payloads {
        if payload.len().saturating_add(4) > (PAYLOAD_MAX - size) as usize {
            return None;
        }
        size += payload.len() as u32 + 4;
    }
    Some(size)
}

/// Adds the members of a record set.
fn put_members(alloc: Global, out: &mut Vec<u8>, payloads: &[Payload]) -> Result<(), NoMemory>
    requires { length (flat_map member_bytes payloads.now) ≤ PAYLOAD_MAX }
    ensures ok { OnOk result (out.new.items ≡ out.old.items ++ flat_map member_bytes payloads.now) }
    ensures err { OnErr result (take (length out.old.items) out.new.items ≡ out.old.items) }
{
    for payload in payloads {
        put_u32(alloc, out, payload.len() as u32)?;
        out.extend_from_slice(payload.as_slice())?;
    }
    Ok(())
}

/// Writes the header of an entry over the first eight bytes.
#[tactic(auto, unfolding(crate::specs::Grammar::header_bytes, dl_codec::specs::Fields::field))]
fn write_header(out: &mut [u8], count: u16, size: u32)
    requires { 8 ≤ length out.old }
    ensures { out.new ≡ header_bytes count size ++ drop 8 out.old }
{
    out[0] = 1;
    out[1] = 0;
    BigEndian::write_u16(&mut out[2..], count);
    BigEndian::write_u32(&mut out[4..], size);
}

/// Writes the header of an entry of so many stored records into the room that is kept for it.
pub(crate) fn close_entry(out: &mut Vec<u8>, count: u16)
    requires room { 8 ≤ length out.old.items }
    requires size { length out.old.items ≤ ENTRY_MAX }
    ensures bytes { out.new.items ≡ header_bytes count (length out.old.items - 8)
        ++ drop 8 out.old.items }
    ensures len { length out.new.items ≡ length out.old.items }
{
    let size = (out.len() - HEADER) as u32;
    write_header(out, count, size);
}

/// Adds a record set.
#[tactic(auto, unfolding(crate::specs::Grammar::fields_and_payload, crate::specs::Grammar::set_bytes))]
pub(crate) fn put_set(
    alloc: Global,
    out: &mut Vec<u8>,
    position: u32,
    txid: TxId,
    payloads: &[Payload],
) -> Result<(), NoMemory>
    requires members { length payloads.now ≤ MEMBERS_MAX }
    requires size { length (set_bytes payloads.now) ≤ PAYLOAD_MAX }
    ensures ok { OnOk result (out.new.items ≡ out.old.items
        ++ fields_and_payload position 4 txid (set_bytes payloads.now)) }
    ensures err { OnErr result (take (length out.old.items) out.new.items ≡ out.old.items) }
{
    let Some(size) = set_size(payloads) else {
        unreachable!();
    };
    put_fields(alloc, out, position, 4, txid, size)?;
    put_u8(alloc, out, 0)?;
    put_u8(alloc, out, 0)?;
    put_u16(alloc, out, payloads.len() as u16)?;
    put_members(alloc, out, payloads)?;
    Ok(())
}

/// Adds a stored record.
fn put_record(alloc: Global, out: &mut Vec<u8>, stored: &Stored) -> Result<(), NoMemory>
    requires { IsRecord stored.now }
    ensures ok { OnOk result (out.new.items ≡ out.old.items ++ record_bytes stored.now) }
{
    match stored {
        Stored::Plain {
            position,
            txid,
            payload,
        } => put_payload(alloc, out, *position, 0, *txid, payload.as_slice()),
        Stored::Control { position, txid } => put_payload(alloc, out, *position, 1, *txid, &[]),
        Stored::Set {
            position,
            txid,
            payloads,
        } => put_set(alloc, out, *position, *txid, payloads.as_slice()),
    }
}

/// Adds stored records, one after the other.
fn put_records(alloc: Global, out: &mut Vec<u8>, parts: &[Stored]) -> Result<(), NoMemory>
    requires { All IsRecord parts.now }
    ensures ok { OnOk result (out.new.items ≡ out.old.items ++ flat_map record_bytes parts.now) }
{
    for part in parts {
        put_record(alloc, out, part)?;
    }
    Ok(())
}

/// The bytes of an entry of these stored records.
pub fn encode_entry(alloc: Global, parts: &[Stored]) -> Result<EntryBytes, NoMemory>
    requires { IsEntry parts.now }
    ensures { IfOk result (λ entry. entry ≡ entry_bytes parts.now) }
{
    let mut out = vec![in alloc; 0; HEADER]?;
    put_records(alloc, &mut out, parts)?;
    close_entry(&mut out, parts.len() as u16);
    EntryBytes::from_vec(out)
}

/// The bytes of an entry that holds a control record alone.
pub fn control(alloc: Global, position: u32, txid: TxId) -> Result<EntryBytes, NoMemory>
    ensures bytes { IfOk result (λ entry. entry ≡ entry_bytes (Control position txid ∷ [])) }
    ensures entry { IsEntry (Control position txid ∷ []) }
{
    let mut out = vec![in alloc; 0; HEADER]?;
    put_payload(alloc, &mut out, position, 1, txid, &[])?;
    close_entry(&mut out, 1);
    EntryBytes::from_vec(out)
}
