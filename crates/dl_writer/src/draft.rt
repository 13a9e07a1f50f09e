ghost use Rattle.std.specs.Prelude.{◌≡◌, ◌<◌, ◌≤◌, false, ◌++◌, ◌∷◌, [], length, nat_lt, not, IfOk, OnOk, OnErr};
ghost use Rattle.dl_record.specs.declared.limits.TheConstants.{PAYLOAD_MAX};
ghost use Rattle.dl_record.specs.Grammar.{entry_bytes, IsEntry};
ghost use Rattle.dl_record.specs.Building.{MayFollow};
ghost use Rattle.dl_writer.specs.Drafts.{empty_draft, with_part, fits_parts, IsUsers, MayTake, HasRoom};

use crate::taken::Taken;
use dl_record::builder::EntryBuilder;
use dl_record::stored::Stored;
use dl_types::entry_bytes::EntryBytes;
use dl_types::memory::NoMemory;
use dl_types::txid::TxId;
use std::alloc::Global;
use std::marker::Model;

/// The entry under way: its bytes are built as records come, and its rows wait to be given places.
#[derive(Debug, Drop)]
pub(crate) struct Draft {
    builder: EntryBuilder,
    rows: Vec<Taken>,
    /// The position of the next stored record: the count of the segment's rows so far.
    next: u32,
    /// The transaction id that was taken last.
    last: TxId,
}

impl Model for Draft {
    ghost use Rattle.dl_writer.specs.Facts.{DraftFacts};
    ghost use Rattle.dl_writer.specs.Drafts.{IsDraft};

    ghost Value = { DraftFacts };

    ghost view = { λ d. record {
      parts = d.builder;
      pending = d.rows.items;
      next = d.next;
      last = d.last;
    } };

    ghost invariant = { λ d. IsDraft (record {
      parts = d.builder;
      pending = d.rows.items;
      next = d.next;
      last = d.last;
    }) };
}

/// Adds a record of a user to the bytes of an entry.
fn build(builder: &mut EntryBuilder, part: &Stored) -> Result<(), NoMemory>
    requires next { MayFollow builder.old part.now }
    requires users { IsUsers part.now }
    ensures ok { OnOk result (builder.new ≡ builder.old ++ part.now ∷ []) }
    ensures err { OnErr result (builder.new ≡ builder.old) }
{
    match part {
        Stored::Plain {
            position,
            txid,
            payload,
        } => builder.push(*position, *txid, payload.as_slice()),
        Stored::Set {
            position,
            txid,
            payloads,
        } => builder.set(*position, *txid, payloads.as_slice()),
        Stored::Control { .. } => unreachable!(),
    }
}

/// Adds rows and the record that holds them, or nothing where memory runs out.
fn add(
    builder: &mut EntryBuilder,
    rows: &mut Vec<Taken>,
    part: &Stored,
    more: &mut Vec<Taken>,
) -> Result<(), NoMemory>
    requires next { MayFollow builder.old part.now }
    requires users { IsUsers part.now }
    ensures built { OnOk result (builder.new ≡ builder.old ++ part.now ∷ []) }
    ensures added { OnOk result (rows.new.items ≡ rows.old.items ++ more.old.items) }
    ensures err_built { OnErr result (builder.new ≡ builder.old) }
    ensures err_added { OnErr result (rows.new.items ≡ rows.old.items) }
{
    let before = rows.len();
    rows.append(more)?;
    match build(builder, part) {
        Ok(()) => Ok(()),
        Err(error) => {
            rows.truncate(before);
            Err(error)
        }
    }
}

impl Draft {
    /// An entry without a record, behind so many rows and this transaction id.
    pub(crate) fn new(alloc: Global, next: u32, last: TxId) -> Result<Draft, NoMemory>
        ensures { IfOk result (λ draft. draft ≡ empty_draft next last) }
    {
        let builder = EntryBuilder::new(alloc)?;
        Ok(Draft {
            builder,
            rows: Vec::new(alloc),
            next,
            last,
        })
    }

    /// Whether a stored record whose payload has so many bytes still fits.
    pub(crate) fn fits(&self, size: u32) -> bool
        ensures value { result ≡ fits_parts self.now.parts size }
        ensures some { size ≤ PAYLOAD_MAX → result ≡ false → 0 < length self.now.pending }
    {
        self.builder.fits(size)
    }

    /// Whether it has a record.
    pub(crate) fn has_parts(&self) -> bool
        ensures parts { result ≡ nat_lt 0 (length self.now.parts) }
        ensures rows { result ≡ nat_lt 0 (length self.now.pending) }
    {
        !self.rows.is_empty()
    }

    /// Its rows.
    pub(crate) fn rows(&self) -> &[Taken]
        ensures { result.now ≡ self.now.pending }
    {
        self.rows.as_slice()
    }

    /// The position of the next stored record.
    pub(crate) fn next(&self) -> u32
        ensures { result ≡ self.now.next }
    {
        self.next
    }

    /// The transaction id that was taken last.
    pub(crate) fn last(&self) -> TxId
        ensures { result ≡ self.now.last }
    {
        self.last
    }

    /// Its bytes. It stays as it is, so that a writer that runs out of memory on the way is as before.
    pub(crate) fn entry(&self) -> Result<EntryBytes, NoMemory>
        requires { 0 < length self.now.pending }
        ensures { IfOk result (λ entry. entry ≡ entry_bytes self.now.parts) }
    {
        self.builder.entry()
    }

    /// Takes a stored record with its rows. Where memory runs out the entry is as before.
    pub(crate) fn take(&mut self, part: &Stored, mut rows: Vec<Taken>) -> Result<(), NoMemory>
        requires next { MayTake self.old.next self.old.last part.now rows.items }
        requires room { HasRoom self.old.parts part.now }
        ensures ok { OnOk result (self.new ≡ with_part self.old part.now rows.items) }
        ensures err { OnErr result (self.new ≡ self.old) }
    {
        let count = rows.len() as u32;
        add(&mut self.builder, &mut self.rows, part, &mut rows)?;
        self.next += count;
        self.last = part.txid();
        Ok(())
    }
}
