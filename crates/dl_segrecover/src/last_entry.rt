//! What the last entry of a segment tells of its end.

ghost use Rattle.std.specs.Prelude.{◌≡◌, ◌+◌, IfOk};
ghost use Rattle.dl_record.specs.Building.{last_of};
ghost use Rattle.dl_record.specs.Reading.{entry_at};
ghost use Rattle.dl_record.specs.Stored.{position_of, rows_in, txid_of};
ghost use Rattle.dl_rules_stream.specs.SegmentRecoveries.{end_by, end_in};

use dl_record::decode::decode_entry;
use dl_record::entry_fault::EntryFault;
use dl_record::stored::Stored;
use dl_types::memory::NoMemory;
use dl_types::txid::TxId;
use std::alloc::Global;

/// How many rows the segment has up to a record and this one, and the record's transaction id.
fn end_at(last: &Stored) -> (u64, TxId)
    ensures { result ≡ (position_of last.now + rows_in last.now, txid_of last.now) }
{
    (u64::from(last.position()) + last.rows() as u64, last.txid())
}

/// The same of the last of these records; without one there are no rows, and the id is 0.
fn end_by(records: &[Stored]) -> (u64, TxId)
    ensures { result ≡ end_by (last_of records.now) }
{
    match records.last() {
        Some(last) => end_at(last),
        None => (0, TxId::new(0)),
    }
}

/// How many rows the segment has up to the last record of its last entry, and the id of that record. Bytes that are no entry
/// tell of no rows, and of the id 0.
pub(crate) fn end_in(alloc: Global, bytes: &[u8]) -> Result<(u64, TxId), NoMemory>
    ensures { IfOk result (λ end. end ≡ end_in (entry_at bytes.now)) }
{
    match decode_entry(alloc, bytes) {
        Ok(records) => Ok(end_by(records.as_slice())),
        Err(EntryFault::NoMemory) => Err(NoMemory),
        Err(_) => Ok((0, TxId::new(0))),
    }
}
