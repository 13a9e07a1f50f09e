ghost use Rattle.std.specs.Prelude.{◌≡◌, ℕ, List, [], ◌∷◌, ◌++◌, true, IfOk, OnOk};
ghost use Rattle.dl_types.specs.declared.dlsn.Dlsn.{Dlsn};
ghost use Rattle.dl_types.specs.declared.row.Row.{Row};
ghost use Rattle.dl_transcript.specs.Legal.{are_below};
ghost use Rattle.dl_shown.specs.Rows.{place_of, is_above, may_grow, is_at};
ghost use Rattle.dl_shown.specs.Rows.{IsNoted, StandsFor};

use dl_types::dlsn::Dlsn;
use dl_types::memory::NoMemory;
use dl_types::row::{Origin, Row};
use dl_types::txid::TxId;
use indexmap::IndexMap;
use std::alloc::Global;

/// A record of a client, as a key of a table.
#[derive(Clone, Copy, Debug, PartialEq, Eq, Hash)]
struct RecordKey {
    /// The client's number.
    client: u16,
    /// The number of the record among the client's.
    call: u32,
}

/// The rows that were shown of a stream. That a row may grow, and that it stands at a place, are told in the time of a look-up.
#[derive(Debug, Drop)]
pub struct RowsShown {
    /// The rows, by rising places.
    rows: Vec<Row>,
    /// The place of the last row.
    top: Option<Dlsn>,
    /// The id of the last row, 0 where there is none.
    last: u64,
    /// Where each record's row stands.
    places: IndexMap<RecordKey, Dlsn>,
    /// Where the last row of each segment stands.
    tops: IndexMap<u64, Dlsn>,
}

impl RowsShown {
    /// No rows.
    pub fn new(alloc: Global) -> RowsShown
        ensures { StandsFor result [] }
    {
        RowsShown {
            rows: Vec::new(alloc),
            top: None,
            last: 0,
            places: IndexMap::new(alloc),
            tops: IndexMap::new(alloc),
        }
    }

    /// Where the row of a record stands.
    fn place_of(&self, client: u16, call: u32) -> Option<Dlsn>
        ensures { result ≡ place_of self.now client call }
    {
        match self.places.get(&RecordKey { client, call }) {
            Some(place) => Some(*place),
            None => None,
        }
    }

    /// Whether the place stands above every row.
    fn is_above(&self, place: Dlsn) -> bool
        ensures { result ≡ is_above self.now.top place }
    {
        match self.top {
            Some(top) => top.is_before(place),
            None => true,
        }
    }

    /// Whether a row may grow at this place, above all rows, with this id, not below the last one, and of a record that has no
    /// row yet.
    pub fn may_grow(&self, place: Dlsn, txid: TxId, origin: Origin) -> bool
        ensures { (rows : List Row) → StandsFor self.now rows
            → result ≡ may_grow rows place txid origin.client origin.call }
    {
        self.is_above(place)
            && self.last <= txid.number()
            && self.place_of(origin.client.number(), origin.call).is_none()
    }

    /// Keeps where a row stands, and its id.
    fn note(&mut self, row: &Row) -> Result<(), NoMemory>
        ensures { OnOk result (IsNoted self.old self.new row.now) }
    {
        let key = RecordKey {
            client: row.origin.client.number(),
            call: row.origin.call,
        };
        let _old = self.places.insert(key, row.place)?;
        let _last = self.tops.insert(row.place.segment, row.place)?;
        self.top = Some(row.place);
        self.last = row.txid.number();
        Ok(())
    }

    /// Keeps a row that grew. After want of memory the table is of no more use.
    pub fn grow(&mut self, row: Row) -> Result<(), NoMemory>
        ensures { OnOk result ((rows : List Row) → StandsFor self.old rows
            → may_grow rows row.place row.txid row.origin.client row.origin.call ≡ true
            → StandsFor self.new (rows ++ row ∷ [])) }
    {
        self.note(&row)?;
        self.rows.push(row)?;
        Ok(())
    }

    /// Whether the row of this record stands at this place.
    pub fn is_at(&self, origin: Origin, place: Dlsn) -> bool
        ensures { (rows : List Row) → StandsFor self.now rows
            → result ≡ is_at rows origin.client origin.call place }
    {
        match self.place_of(origin.client.number(), origin.call) {
            Some(there) => there == place,
            None => false,
        }
    }

    /// Whether the place stands above the rows of its segment.
    pub fn is_behind(&self, place: Dlsn) -> bool
        ensures { (rows : List Row) → StandsFor self.now rows → result ≡ are_below place rows }
    {
        match self.tops.get(&place.segment) {
            Some(top) => top.is_before(place),
            None => true,
        }
    }
}
