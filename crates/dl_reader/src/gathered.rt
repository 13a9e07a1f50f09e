ghost use Rattle.std.specs.Prelude.{◌≡◌, ◌<◌, ◌++◌, [], IfOk, OnErr, OnOk, filter, length, map, take};
ghost use Rattle.dl_record.specs.Reading.{entry_at};
ghost use Rattle.dl_formats.specs.NodeBytes.{max_u64};
ghost use Rattle.dl_record.specs.RowViews.{shared_view};
ghost use Rattle.dl_rules_stream.specs.LogReaders.{behind, is_wanted, rows_in};
ghost use Rattle.dl_reader.specs.Readings.{row_at};

use crate::position::Position;
use dl_record::shared_row::{SharedRow, shared_rows};
use dl_types::dlsn::Dlsn;
use dl_types::entry_bytes::EntryBytes;
use dl_types::memory::NoMemory;
use dl_types::read_row::{ReadRow, ReadRows};
use std::alloc::Global;
use std::marker::Model;

/// The rows that a read has gathered. None is of the entry of the greatest number, since the count of a ledger's entries is a
/// number too.
#[derive(Debug, Drop)]
pub(crate) struct Gathered {
    rows: Vec<ReadRow>,
}

impl Model for Gathered {
    ghost use Rattle.std.specs.Prelude.{List};
    ghost use Rattle.dl_types.specs.declared.read_row.ReadRow.{ReadRow};
    ghost use Rattle.dl_reader.specs.Low.{AreLow};

    ghost Value = { List ReadRow };

    ghost view = { λ g. g.rows.items };

    ghost invariant = { λ g. AreLow g.rows.items };
}

/// A row of an entry at its place in the stream; both share the payload.
fn place_row(segment: u64, entry: u64, row: &SharedRow) -> Result<ReadRow, NoMemory>
    ensures { IfOk result (λ placed. placed ≡ row_at segment entry (shared_view row.now)) }
{
    let place = Dlsn {
        segment,
        entry,
        slot: row.slot,
    };
    Ok(ReadRow {
        place,
        txid: row.txid,
        payload: row.payload.share()?,
    })
}

/// Those of an entry's rows that a reader at this position wants.
fn wanted_among(
    alloc: Global,
    position: Position,
    segment: u64,
    entry: u64,
    rows: &[SharedRow],
) -> Result<Vec<ReadRow>, NoMemory>
    ensures { IfOk result (λ wanted. wanted.items
        ≡ filter (is_wanted position) (map (row_at segment entry) (map shared_view rows.now))) }
{
    let mut wanted = Vec::new(alloc);
    for row in rows {
        let placed = place_row(segment, entry, row)?;
        if position.wants(&placed) {
            wanted.push(placed)?;
        }
    }
    Ok(wanted)
}

/// The rows of an entry that a reader at this position wants.
#[tactic(auto, using(crate::proofs::Rows::rows_in_is))]
fn wanted_rows(
    alloc: Global,
    position: Position,
    segment: u64,
    entry: u64,
    bytes: &EntryBytes,
) -> Result<Vec<ReadRow>, NoMemory>
    ensures { IfOk result (λ rows. rows.items
        ≡ filter (is_wanted position) (rows_in segment entry (entry_at bytes.now))) }
{
    let rows = shared_rows(alloc, bytes)?;
    wanted_among(alloc, position, segment, entry, rows.as_slice())
}

impl Gathered {
    /// No rows; no memory is taken.
    pub(crate) fn new(alloc: Global) -> Gathered
        ensures { result ≡ [] }
    {
        Gathered {
            rows: Vec::new(alloc),
        }
    }

    /// The rows that a reader at this position wants of an entry, which these bytes spell. Bytes with a flaw have no rows.
    pub(crate) fn of_entry(
        alloc: Global,
        position: Position,
        segment: u64,
        entry: u64,
        bytes: &EntryBytes,
    ) -> Result<Gathered, NoMemory>
        requires { entry < max_u64 }
        ensures { IfOk result (λ rows. rows
            ≡ filter (is_wanted position) (rows_in segment entry (entry_at bytes.now))) }
    {
        let rows = wanted_rows(alloc, position, segment, entry, bytes)?;
        Ok(Gathered { rows })
    }

    /// How many rows there are.
    pub(crate) fn len(&self) -> usize
        ensures { result ≡ length self.now }
    {
        self.rows.len()
    }

    /// Adds rows behind the others, and leaves the first of all, so many. Want of memory leaves them as they are.
    pub(crate) fn add(&mut self, rows: Gathered, count: u32) -> Result<(), NoMemory>
        ensures ok { OnOk result (self.new ≡ take count (self.old ++ rows)) }
        ensures err { OnErr result (self.new ≡ self.old) }
    {
        let Gathered { mut rows } = rows;
        self.rows.append(&mut rows)?;
        self.rows.truncate(count as usize);
        Ok(())
    }

    /// The position behind these rows, where they are given to a reader at this one.
    pub(crate) fn behind(&self, position: Position) -> Position
        ensures { result ≡ behind position self.now }
    {
        position.behind(self.rows.as_slice())
    }

    /// The rows, as they are given.
    pub(crate) fn into_rows(self) -> ReadRows
        ensures { result ≡ self }
    {
        let Gathered { rows } = self;
        ReadRows::from_vec(rows)
    }
}
