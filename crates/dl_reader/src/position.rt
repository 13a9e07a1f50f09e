ghost use Rattle.std.specs.Prelude.{◌≡◌, ◌<◌};
ghost use Rattle.dl_types.specs.Places.{after_place, greater};
ghost use Rattle.dl_formats.specs.NodeBytes.{max_u64};
ghost use Rattle.dl_rules_stream.specs.Seeks.{position_at};
ghost use Rattle.dl_rules_stream.specs.LogReaders.{behind, is_wanted};
ghost use Rattle.dl_reader.specs.Low.{AreLow};

use dl_types::dlsn::Dlsn;
use dl_types::read_row::ReadRow;
use dl_types::start::Start;
use dl_types::txid::TxId;
use std::marker::Model;

/// Where a read begins: the place of the next row that a reader is given, and the least transaction id that it takes.
#[derive(Clone, Copy, Debug)]
pub(crate) struct Position {
    pub(crate) cursor: Dlsn,
    pub(crate) floor: TxId,
}

impl Model for Position {
    ghost use Rattle.dl_rules_stream.specs.Seeks as rule;

    ghost Value = { rule.Position };

    ghost view = { λ p. record { cursor = p.cursor; floor = p.floor } };

    ghost inverse = { λ p. record { cursor = p.cursor; floor = p.floor } };
}

/// The place that stands behind the other one.
fn greater(a: Dlsn, b: Dlsn) -> Dlsn
    ensures { result ≡ greater a b }
{
    if a.is_before(b) { b } else { a }
}

/// The place behind one: the next slot, or past the greatest slot the next entry.
#[tactic(auto, unfolding(dl_types::specs::Places::after_place))]
fn after_place(place: Dlsn) -> Dlsn
    requires { place.entry < max_u64 }
    ensures { result ≡ after_place place }
{
    let Dlsn {
        segment,
        entry,
        slot,
    } = place;
    if slot == u32::MAX {
        Dlsn {
            segment,
            entry: entry + 1,
            slot: 0,
        }
    } else {
        Dlsn {
            segment,
            entry,
            slot: slot + 1,
        }
    }
}

impl Position {
    /// Where a reader begins that starts so, in a stream with this point.
    pub(crate) fn start(point: Dlsn, from: Start) -> Position
        ensures { result ≡ position_at point from }
    {
        let floor = TxId::new(0);
        match from {
            Start::Oldest => Position {
                cursor: point,
                floor,
            },
            Start::Place(place) => Position {
                cursor: greater(place.dlsn(), point),
                floor,
            },
            Start::Tx(txid) => Position {
                cursor: point,
                floor: txid,
            },
        }
    }

    /// Whether a reader here wants a row: it stands at or above the cursor, and its id is not below the floor.
    pub(crate) fn wants(self, row: &ReadRow) -> bool
        ensures { result ≡ is_wanted self row.now }
    {
        !row.place.is_before(self.cursor) && self.floor.number() <= row.txid.number()
    }

    /// The position behind rows that were given.
    pub(crate) fn behind(self, rows: &[ReadRow]) -> Position
        requires { AreLow rows.now }
        ensures { result ≡ behind self rows.now }
    {
        match rows {
            [] => self,
            [.., last] => Position {
                cursor: after_place(last.place),
                floor: self.floor,
            },
        }
    }
}
