ghost use Rattle.std.specs.Prelude.{◌≡◌, ◌+◌, ◌-◌, ◌≤◌, ◌<◌, ◌++◌, ◌↔◌, [], ◌∷◌, length, drop, IsTrue, IfOk, OnOk, OnErr};
ghost use Rattle.dl_codec.specs.Fields.{IsBytes};
ghost use Rattle.dl_record.specs.declared.stored.Stored.TheVariants.{Plain, Set};
ghost use Rattle.dl_record.specs.Grammar.{entry_bytes, fields_and_payload, set_bytes, header_bytes, IsEntry};
ghost use Rattle.dl_record.specs.Rows.{row_count};
ghost use Rattle.dl_record.specs.Building.{MayFollow};

use crate::encode::{HEADER, close_entry, put_payload, put_set};
use crate::limits::{ENTRY_MAX, MEMBERS_MAX, PAYLOAD_MAX};
use bytes::Bytes;
use dl_types::entry_bytes::EntryBytes;
use dl_types::memory::NoMemory;
use dl_types::payload::Payload;
use dl_types::txid::TxId;
use std::alloc::Global;
use std::marker::Model;
use std::mem;

/// An entry under way, to which user records are added. It keeps the bytes of the entry, so that a record is copied once,
/// and the header is written at the end. Contracts see it as the list of the stored records that were pushed.
#[derive(Debug, Drop)]
pub struct EntryBuilder {
    alloc: Global,
    /// Room for the header, and the stored records.
    bytes: Vec<u8>,
    count: u16,
    rows: u32,
}

impl Model for EntryBuilder {
    ghost use Rattle.std.specs.Prelude.{List};
    ghost use Rattle.dl_record.specs.declared.stored.Stored.{Stored};

    ghost Value = { List Stored };

    ghost use Rattle.dl_record.specs.Building.{parts_in, IsBuilding};

    ghost view = { λ b. parts_in b.count b.bytes.items };

    ghost invariant = { λ b. IsBuilding b.count b.rows b.bytes.items };
}

/// Adds a plain record, or nothing where memory runs out.
fn add_plain(
    alloc: Global,
    out: &mut Vec<u8>,
    position: u32,
    txid: TxId,
    payload: &[u8],
) -> Result<(), NoMemory>
    requires { length payload.now ≤ PAYLOAD_MAX }
    ensures ok { OnOk result (out.new.items ≡ out.old.items
        ++ fields_and_payload position 0 txid payload.now) }
    ensures err { OnErr result (out.new.items ≡ out.old.items) }
    ensures bytes { IsBytes out.old.items }
{
    let start = out.len();
    match put_payload(alloc, out, position, 0, txid, payload) {
        Ok(()) => Ok(()),
        Err(error) => {
            out.truncate(start);
            Err(error)
        }
    }
}

/// Adds a record set, or nothing where memory runs out.
fn add_set(
    alloc: Global,
    out: &mut Vec<u8>,
    position: u32,
    txid: TxId,
    payloads: &[Payload],
) -> Result<(), NoMemory>
    requires members { length payloads.now ≤ MEMBERS_MAX }
    requires size { length (set_bytes payloads.now) ≤ PAYLOAD_MAX }
    ensures ok { OnOk result (out.new.items ≡ out.old.items
        ++ fields_and_payload position 4 txid (set_bytes payloads.now)) }
    ensures err { OnErr result (out.new.items ≡ out.old.items) }
    ensures bytes { IsBytes out.old.items }
{
    let start = out.len();
    match put_set(alloc, out, position, txid, payloads) {
        Ok(()) => Ok(()),
        Err(error) => {
            out.truncate(start);
            Err(error)
        }
    }
}

/// Room for a header.
fn make_room(alloc: Global) -> Result<Vec<u8>, NoMemory>
    ensures { IfOk result (λ room. length room.items ≡ 8) }
{
    let room = vec![in alloc; 0; HEADER]?;
    Ok(room)
}

/// Takes the entry out, and leaves room for the next one's header. Where memory runs out the stored records stay.
fn take_entry(alloc: Global, out: &mut Vec<u8>, count: u16) -> Result<EntryBytes, NoMemory>
    requires room { 8 ≤ length out.old.items }
    requires size { length out.old.items ≤ ENTRY_MAX }
    ensures entry { IfOk result
        (λ e. e ≡ header_bytes count (length out.old.items - 8) ++ drop 8 out.old.items) }
    ensures empty { OnOk result (length out.new.items ≡ 8) }
    ensures len { OnErr result (length out.new.items ≡ length out.old.items) }
    ensures err { OnErr result (drop 8 out.new.items ≡ drop 8 out.old.items) }
    ensures bytes { IsBytes out.old.items }
{
    let room = make_room(alloc)?;
    close_entry(out, count);
    match Bytes::from_vec(mem::replace(out, room)) {
        Ok(bytes) => Ok(EntryBytes::from_bytes(bytes)),
        Err(failed) => {
            *out = failed.value;
            Err(NoMemory)
        }
    }
}

/// A copy of the entry, whose header is written there alone.
fn copy_entry(alloc: Global, out: &[u8], count: u16) -> Result<EntryBytes, NoMemory>
    requires room { 8 ≤ length out.now }
    requires size { length out.now ≤ ENTRY_MAX }
    ensures entry { IfOk result
        (λ e. e ≡ header_bytes count (length out.now - 8) ++ drop 8 out.now) }
    ensures bytes { IsBytes out.now }
{
    let mut copy = Vec::from_slice(alloc, out)?;
    close_entry(&mut copy, count);
    EntryBytes::from_vec(copy)
}

impl EntryBuilder {
    /// A builder with no record.
    pub fn new(alloc: Global) -> Result<EntryBuilder, NoMemory>
        ensures { IfOk result (λ builder. builder ≡ []) }
    {
        let bytes = make_room(alloc)?;
        Ok(EntryBuilder {
            alloc,
            bytes,
            count: 0,
            rows: 0,
        })
    }

    /// Whether a stored record whose payload has so many bytes still fits the entry.
    pub fn fits(&self, size: u32) -> bool
        ensures { IsTrue result ↔ (length (entry_bytes self.now) + 20 + size ≤ ENTRY_MAX) }
    {
        self.bytes.len() + 20 + size as usize <= ENTRY_MAX
    }

    /// How many user rows were pushed.
    pub fn rows(&self) -> u32
        ensures { result ≡ row_count self.now }
    {
        self.rows
    }

    /// Adds a plain record that may stand next. Where memory runs out the builder is as before.
    pub fn push(&mut self, position: u32, txid: TxId, payload: &[u8]) -> Result<(), NoMemory>
        requires { MayFollow self.old (Plain position txid payload.now) }
        ensures ok { OnOk result (self.new ≡ self.old ++ Plain position txid payload.now ∷ []) }
        ensures err { OnErr result (self.new ≡ self.old) }
    {
        add_plain(self.alloc, &mut self.bytes, position, txid, payload)?;
        self.count += 1;
        self.rows += 1;
        Ok(())
    }

    /// Adds a record set that may stand next. Where memory runs out the builder is as before.
    pub fn set(&mut self, position: u32, txid: TxId, payloads: &[Payload]) -> Result<(), NoMemory>
        requires { MayFollow self.old (Set position txid payloads.now) }
        ensures ok { OnOk result (self.new ≡ self.old ++ Set position txid payloads.now ∷ []) }
        ensures err { OnErr result (self.new ≡ self.old) }
    {
        add_set(self.alloc, &mut self.bytes, position, txid, payloads)?;
        self.count += 1;
        self.rows += payloads.len() as u32;
        Ok(())
    }

    /// The entry of the records that were pushed. The builder stays as it is, so that a writer that runs out of memory on
    /// the way is as before; `clear` empties it.
    pub fn entry(&self) -> Result<EntryBytes, NoMemory>
        requires { 0 < row_count self.now }
        ensures bytes { IfOk result (λ entry. entry ≡ entry_bytes self.now) }
        ensures entry { IsEntry self.now }
    {
        let entry = copy_entry(self.alloc, &self.bytes, self.count)?;
        Ok(entry)
    }

    /// Drops the records that were pushed. It takes no memory.
    pub fn clear(&mut self)
        ensures { self.new ≡ [] }
    {
        self.bytes.truncate(HEADER);
        self.count = 0;
        self.rows = 0;
    }

    /// The entry of the records that were pushed, after which the builder has none. Where memory runs out it is as before.
    pub fn finish(&mut self) -> Result<EntryBytes, NoMemory>
        requires { 0 < row_count self.old }
        ensures bytes { IfOk result (λ entry. entry ≡ entry_bytes self.old) }
        ensures entry { IsEntry self.old }
        ensures empty { OnOk result (self.new ≡ []) }
        ensures err { OnErr result (self.new ≡ self.old) }
    {
        let entry = take_entry(self.alloc, &mut self.bytes, self.count)?;
        self.count = 0;
        self.rows = 0;
        Ok(entry)
    }
}
