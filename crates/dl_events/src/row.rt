ghost use Rattle.std.specs.Prelude.{◌≡◌};
ghost use Rattle.dl_text.specs.Readers.{Gives};
ghost use Rattle.dl_text.specs.ListFields.{item_at, list_at};
ghost use Rattle.dl_transcript.specs.Reading.{row_at};

use dl_text::hex::hex_of;
use dl_text::number::number_of;
use dl_text::place::place_of;
use dl_text::stop::Stop;
use dl_types::payload::Payload;
use dl_types::read_row::ReadRow;
use dl_types::txid::{MAX_TXID, TxId};
use std::alloc::Global;

/// A row of a list, and whether others follow.
#[derive(Debug, Drop)]
struct Item {
    row: ReadRow,
    follow: bool,
}

/// A row as it is read, and the text behind the byte `end` that ends it.
fn row_of(alloc: Global, end: u8, bytes: &[u8]) -> Result<(ReadRow, &[u8]), Stop>
    ensures { Gives (λ x. (x.0, x.1.now)) result (row_at end bytes.now) }
{
    let (place, rest) = place_of(0, b'/', bytes)?;
    let (txid, rest) = number_of(0, MAX_TXID, b'/', rest)?;
    let (payload, rest) = hex_of(alloc, end, rest)?;
    let payload = Payload::from_vec(payload)?;
    let txid = TxId::new(txid);
    Ok((
        ReadRow {
            place,
            txid,
            payload,
        },
        rest,
    ))
}

/// A row of a list: a space stands behind it where others follow, and a line feed where none do.
fn item_of(alloc: Global, bytes: &[u8]) -> Result<(Item, &[u8]), Stop>
    ensures { Gives (λ x. ((x.0.row, x.0.follow), x.1.now)) result (item_at row_at bytes.now) }
{
    let one = match row_of(alloc, b' ', bytes) {
        Ok((row, rest)) => return Ok((Item { row, follow: true }, rest)),
        Err(Stop::NoMemory) => return Err(Stop::NoMemory),
        Err(Stop::Left(one)) => one,
    };
    match row_of(alloc, b'\n', bytes) {
        Ok((row, rest)) => Ok((Item { row, follow: false }, rest)),
        Err(Stop::NoMemory) => Err(Stop::NoMemory),
        Err(Stop::Left(other)) => Err(Stop::Left(if one < other { one } else { other })),
    }
}

/// Rows to the end of the line: one, and at most `more` others.
pub fn rows_of(alloc: Global, more: u64, bytes: &[u8]) -> Result<(Vec<ReadRow>, &[u8]), Stop>
    ensures { Gives (λ x. (x.0.items, x.1.now)) result (list_at row_at more bytes.now) }
{
    let mut found = Vec::new(alloc);
    let mut rest = bytes;
    let mut left = more;
    while left > 0 {
        let (item, behind) = item_of(alloc, rest)?;
        let Item { row, follow } = item;
        found.push(row)?;
        if !follow {
            return Ok((found, behind));
        }
        rest = behind;
        left -= 1;
    }
    let (last, behind) = row_of(alloc, b'\n', rest)?;
    found.push(last)?;
    Ok((found, behind))
}
