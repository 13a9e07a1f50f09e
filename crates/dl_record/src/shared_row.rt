ghost use Rattle.std.specs.Prelude.{◌≡◌, ◌≤◌, IfOk, length, map};
ghost use Rattle.dl_record.specs.Grammar.{IsEntryBytes};
ghost use Rattle.dl_record.specs.Reading.{entry_at};
ghost use Rattle.dl_record.specs.Rows.{rows_read};
ghost use Rattle.dl_record.specs.RowViews.{shared_view};
ghost use Rattle.dl_record.specs.Walks.{span_row};

use crate::check::check_entry;
use crate::step::{RowSpan, first_cursor, step_of};
use bytes::Bytes;
use dl_types::entry_bytes::EntryBytes;
use dl_types::memory::NoMemory;
use dl_types::payload::Payload;
use dl_types::txid::TxId;
use std::alloc::Global;

/// A user row that shares the bytes of its entry, so that it can outlive them.
#[derive(Debug, Drop)]
pub struct SharedRow {
    /// The row among those of its entry, from 0. Control records are not counted.
    pub slot: u32,
    /// Its transaction id; the members of a record set share theirs.
    pub txid: TxId,
    /// Its payload: a piece of the bytes of the entry.
    pub payload: Payload,
}

/// The row at a span of the bytes of an entry.
fn row_at(bytes: &Bytes, span: RowSpan) -> Result<SharedRow, NoMemory>
    requires starts { span.start ≤ span.end }
    requires ends { span.end ≤ length bytes.now }
    ensures { IfOk result (λ row. shared_view row ≡ span_row bytes.now span) }
{
    let payload = bytes.slice(span.start..span.end)?;
    Ok(SharedRow {
        slot: span.slot,
        txid: span.txid,
        payload: Payload::from_bytes(payload),
    })
}

/// The rows of the entry that these bytes spell.
fn rows_of(alloc: Global, bytes: &Bytes) -> Result<Vec<SharedRow>, NoMemory>
    requires { IsEntryBytes bytes.now }
    ensures { IfOk result (λ rows. map shared_view rows.items ≡ rows_read (entry_at bytes.now)) }
{
    let mut rows = Vec::new(alloc);
    let mut cursor = first_cursor(bytes.as_slice());
    while let Some(step) = step_of(bytes.as_slice(), &cursor) {
        rows.push(row_at(bytes, step.row)?)?;
        cursor = step.next;
    }
    Ok(rows)
}

/// The user rows of an entry, in order. Their payloads are pieces of its bytes, which are copied nowhere. Bytes with a flaw, which
/// `check_entry` names, have no rows.
pub fn shared_rows(alloc: Global, bytes: &EntryBytes) -> Result<Vec<SharedRow>, NoMemory>
    ensures { IfOk result (λ rows. map shared_view rows.items ≡ rows_read (entry_at bytes.now)) }
{
    let bytes = bytes.share()?.into_bytes();
    match check_entry(bytes.as_slice()) {
        Err(_) => Ok(Vec::new(alloc)),
        Ok(()) => rows_of(alloc, &bytes),
    }
}
