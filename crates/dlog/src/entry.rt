ghost use Rattle.std.specs.Prelude.{◌≡◌, ◌+◌, ◌<◌, ◌≤◌, ◌++◌, ◌∷◌, [], length};
ghost use Rattle.std.specs.Prelude.{nat_le, ◌==◌, OnOk, OnErr, ◌^◌};
ghost use Rattle.dlog.specs.Machine.{entry_size, record_size};
ghost use Rattle.dlog.specs.Entries.{row_of, rows_of, payload_bytes};

use dl_types::dlsn::Dlsn;
use dl_types::entry_bytes::MAX_ENTRY;
use dl_types::memory::NoMemory;
use dl_types::row::Origin;
use dl_types::txid::TxId;
use std::alloc::Global;
use std::marker::Model;

/// The bytes of an entry's header, of a record's header, and the most bytes of an entry.
const ENTRY_HEADER: usize = 8;

const RECORD_HEADER: usize = 20;

const ENTRY_LIMIT: usize = MAX_ENTRY as usize;

/// A row but for its payload, and how many bytes that has.
#[derive(Clone, Copy, Debug)]
pub struct Head {
    pub place: Dlsn,
    pub txid: TxId,
    pub origin: Origin,
    pub length: u32,
}

/// The rows of one entry, whose bytes are within the limit on entries. Their payloads stand one behind the other, so that
/// a row takes no piece of memory of its own. Contracts see it as the list of the rows.
#[derive(Debug, Drop)]
pub struct Entry {
    heads: Vec<Head>,
    payloads: Vec<u8>,
    size: usize,
}

impl Model for Entry {
    ghost use Rattle.std.specs.Prelude.{List};
    ghost use Rattle.dl_types.specs.declared.row.Row.{Row};
    ghost use Rattle.dlog.specs.Entries.{IsPacked, rows_of};

    ghost Value = { List Row };

    ghost view = { λ e. rows_of e.heads.items e.payloads.items };

    ghost invariant = { λ e. IsPacked e.size e.heads.items e.payloads.items };
}

/// Adds a head and its payload behind the others. Want of memory leaves them as they are.
fn add(
    heads: &mut Vec<Head>,
    payloads: &mut Vec<u8>,
    head: Head,
    payload: &[u8],
) -> Result<(), NoMemory>
    ensures heads { OnOk result (heads.new.items ≡ heads.old.items ++ head ∷ []) }
    ensures payloads { OnOk result (payloads.new.items ≡ payloads.old.items ++ payload.now) }
    ensures err_heads { OnErr result (heads.new.items ≡ heads.old.items) }
    ensures err_payloads { OnErr result (payloads.new.items ≡ payloads.old.items) }
{
    let before = payloads.len();
    payloads.extend_from_slice(payload)?;
    match heads.push(head) {
        Ok(()) => Ok(()),
        Err(_) => {
            payloads.truncate(before);
            Err(NoMemory)
        }
    }
}

impl Entry {
    /// An entry without rows.
    pub fn new(alloc: Global) -> Entry
        ensures { result ≡ [] }
    {
        Entry {
            heads: Vec::new(alloc),
            payloads: Vec::new(alloc),
            size: ENTRY_HEADER,
        }
    }

    /// How many rows there are.
    #[tactic(auto, using(crate::proofs::EntryLemmas::count_of_rows))]
    pub fn len(&self) -> usize
        ensures value { result ≡ length self.now }
        ensures short { result < 2 ^ 32 }
    {
        let _size = self.size;
        self.heads.len()
    }

    /// Whether there are no rows.
    #[tactic(auto, using(crate::proofs::EntryLemmas::count_of_rows))]
    pub fn is_empty(&self) -> bool
        ensures { result ≡ (length self.now == 0) }
    {
        self.heads.len() == 0
    }

    /// Whether a record of so many payload bytes still fits.
    pub fn fits(&self, bytes: usize) -> bool
        requires { bytes < 2 ^ 32 }
        ensures { result ≡ nat_le (entry_size self.now + record_size bytes) MAX_ENTRY }
    {
        self.size + (RECORD_HEADER + bytes) <= ENTRY_LIMIT
    }

    /// Adds a row behind the others, by its head and its payload. Want of memory leaves them as they are.
    #[tactic(auto, using(crate::proofs::EntryLemmas::rows_more))]
    pub fn push(&mut self, head: Head, payload: &[u8]) -> Result<(), NoMemory>
        requires length { head.length ≡ length payload.now }
        requires room { entry_size self.old + record_size (length payload.now) ≤ MAX_ENTRY }
        ensures ok { OnOk result (self.new ≡ self.old ++ row_of head payload.now ∷ []) }
        ensures err { OnErr result (self.new ≡ self.old) }
    {
        let size = self.size + (RECORD_HEADER + payload.len());
        add(&mut self.heads, &mut self.payloads, head, payload)?;
        self.size = size;
        Ok(())
    }

    /// The heads of the rows, in order, and their payloads, one behind the other.
    pub fn parts(&self) -> (&[Head], &[u8])
        ensures rows { rows_of result.0.now result.1.now ≡ self.now }
        ensures whole { payload_bytes result.0.now ≡ length result.1.now }
    {
        (self.heads.as_slice(), self.payloads.as_slice())
    }
}
