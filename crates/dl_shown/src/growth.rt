ghost use Rattle.std.specs.Prelude.{◌≡◌};
ghost use Rattle.dl_transcript.specs.declared.event.Event.TheVariants as event;
ghost use Rattle.dl_transcript.specs.Legal.{History, keeps};
ghost use Rattle.dl_shown.specs.Streams.{StandsFor as StandsForStream};
ghost use Rattle.dl_shown.specs.Rows.{StandsFor as StandsForRows};
ghost use Rattle.dl_shown.specs.Records.{StandsFor as StandsForRecords};

use crate::records::RecordsShown;
use crate::rows::RowsShown;
use crate::stream::StreamShown;
use dl_types::name::Name;
use dl_types::row::Row;

/// Whether a stream of this name may grow by this row, by the tables of the stream and of the row's client.
pub fn may_grow(
    stream: &StreamShown,
    rows: &RowsShown,
    records: &RecordsShown,
    name: &Name,
    row: &Row,
) -> bool
    ensures { (s : History) → StandsForStream stream.now (s.streams name.now)
        → StandsForRows rows.now (s.streams name.now).rows
        → StandsForRecords records.now (s.clients row.now.origin.client)
        → result ≡ keeps s (event.Grow name.now row.now.place row.now.txid row.now.origin.client
        row.now.origin.call row.now.payload) }
{
    let held = stream.may_hold(row.place);
    let grown = rows.may_grow(row.place, row.txid, row.origin);
    let taken = records.is_record(row.origin.call, name, row.txid, &row.payload);
    held & grown & taken
}
