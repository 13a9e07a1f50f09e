ghost use Rattle.std.specs.Prelude.{◌≡◌, ◌≤◌, List, length};
ghost use Rattle.std.specs.Iterator.{YieldsFirstBy, item_count};
ghost use Rattle.dl_record.specs.declared.stored.Stored.{Stored};
ghost use Rattle.dl_record.specs.Grammar.{IsEntry, IsEntryBytes, entry_bytes};
ghost use Rattle.dl_record.specs.Rows.{user_rows};
ghost use Rattle.dl_record.specs.RowViews.{row_view};
ghost use Rattle.dl_record.specs.Walks.{span_row};

use crate::cursor::Cursor;
use crate::step::{RowSpan, first_cursor, step_of};
use crate::user_row::UserRow;
use std::marker::Model;

/// A walk over the user rows of an entry, in order: for each its slot, its transaction id and its payload, which lies in
/// the bytes of the entry and is copied nowhere. Contracts see a walk as the list of the rows that it has left.
#[derive(Drop)]
pub struct RowWalk<'a> {
    bytes: &'a [u8],
    cursor: Cursor,
}

impl<'a> Model for RowWalk<'a> {
    ghost use Rattle.std.specs.Prelude.{List};
    ghost use Rattle.dl_record.specs.UserRows.{RowOf};

    ghost Value = { List RowOf };

    ghost use Rattle.dl_record.specs.Walks.{rows_left, IsWalk};

    ghost view = { λ w. rows_left w.bytes.now w.cursor };

    ghost invariant = { λ w. IsWalk w.bytes.now w.cursor };
}

impl<'a> RowWalk<'a> {
    /// A walk over the rows of the entry that these bytes spell.
    pub fn new(bytes: &'a [u8]) -> RowWalk<'a>
        requires { IsEntryBytes bytes.now }
        ensures { (parts : List Stored) → IsEntry parts → bytes.now ≡ entry_bytes parts
            → result ≡ user_rows parts }
    {
        RowWalk {
            bytes,
            cursor: first_cursor(bytes),
        }
    }
}

/// The row at a span of the bytes of an entry.
fn row_at<'a>(bytes: &'a [u8], span: RowSpan) -> UserRow<'a>
    requires starts { span.start ≤ span.end }
    requires ends { span.end ≤ length bytes.now }
    ensures { row_view result ≡ span_row bytes.now span }
{
    UserRow {
        slot: span.slot,
        txid: span.txid,
        payload: &bytes[span.start..span.end],
    }
}

impl<'a> Iterator for RowWalk<'a> {
    type Item = UserRow<'a>;

    ghost next_gives = { YieldsFirstBy row_view (λ rows. rows) };

    ghost remaining = { item_count (λ rows. rows) };

    fn next(&mut self) -> Option<UserRow<'a>> {
        match step_of(self.bytes, &self.cursor) {
            None => None,
            Some(step) => {
                let row = row_at(self.bytes, step.row);
                self.cursor = step.next;
                Some(row)
            }
        }
    }
}
