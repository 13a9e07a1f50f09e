ghost use Rattle.std.specs.Prelude.{◌≡◌, ◌+◌, ◌≤◌, ◌<◌, List, [], ℕ, length, MatchOption, IfSome, Ok};
ghost use Rattle.dl_record.specs.declared.stored.Stored.{Stored};
ghost use Rattle.dl_record.specs.Grammar.{IsEntry, IsEntryBytes, entry_bytes};
ghost use Rattle.dl_record.specs.Reading.{entry_at, field_at};
ghost use Rattle.std.specs.Int.{w16};
ghost use Rattle.dl_record.specs.Rows.{user_rows, rows_read};
ghost use Rattle.dl_record.specs.Walks.{rows_left, IsWalk, Leads};

use crate::cursor::Cursor;
use crate::fields::u16_at;
use crate::head::head_of;
use crate::kind::Kind;
use crate::sets::{member_end_of, members_count_of};
use dl_types::txid::TxId;

/// A user row by where its payload lies in the bytes of its entry: from `start` up to `end`.
#[derive(Clone, Copy)]
pub struct RowSpan {
    pub slot: u32,
    pub txid: TxId,
    pub start: usize,
    pub end: usize,
}

/// A row, and where the walk goes on behind it.
#[derive(Clone, Copy)]
pub struct Step {
    pub row: RowSpan,
    pub next: Cursor,
}

/// The row of the next member of the record set under way.
#[tactic(auto, unfolding(crate::specs::Rows::members_walk))]
fn member_step(bytes: &[u8], cursor: &Cursor) -> Option<Step>
    requires walk { IsWalk bytes.now cursor.now }
    requires some { 0 < cursor.now.members }
    ensures { MatchOption result (rows_left bytes.now cursor.now ≡ [])
        (Leads bytes.now cursor.now) }
{
    match member_end_of(bytes, cursor.member_at) {
        Err(_) => None,
        Ok(end) => Some(Step {
            row: RowSpan {
                slot: cursor.slot,
                txid: cursor.txid,
                start: cursor.member_at + 4,
                end,
            },
            next: Cursor {
                at: cursor.at,
                records: cursor.records,
                slot: cursor.slot + 1,
                members: cursor.members - 1,
                member_at: end,
                txid: cursor.txid,
            },
        }),
    }
}

/// The row at the front of the next stored record.
#[tactic(auto, unfolding(crate::specs::Rows::members_walk, crate::specs::Rows::records_walk))]
fn record_step(bytes: &[u8], cursor: &Cursor) -> Option<Step>
    requires walk { IsWalk bytes.now cursor.now }
    requires none { cursor.now.members ≡ 0 }
    requires some { 0 < cursor.now.records }
    ensures { MatchOption result (rows_left bytes.now cursor.now ≡ [])
        (Leads bytes.now cursor.now) }
{
    let head = match head_of(true, None, bytes, cursor.at) {
        Err(_) => return None,
        Ok(head) => head,
    };
    match head.kind {
        Kind::Control => None,
        Kind::Plain => Some(Step {
            row: RowSpan {
                slot: cursor.slot,
                txid: head.txid,
                start: cursor.at + 20,
                end: head.end,
            },
            next: Cursor {
                at: head.end,
                records: cursor.records - 1,
                slot: cursor.slot + 1,
                members: 0,
                member_at: 0,
                txid: head.txid,
            },
        }),
        Kind::Set => match members_count_of(bytes, cursor.at + 22) {
            Err(_) => None,
            Ok(count) => member_step(
                bytes,
                &Cursor {
                    at: head.end,
                    records: cursor.records - 1,
                    slot: cursor.slot,
                    members: count,
                    member_at: cursor.at + 24,
                    txid: head.txid,
                },
            ),
        },
    }
}

/// The next row, and where the walk goes on behind it.
#[tactic(auto, unfolding(crate::specs::Rows::members_walk, crate::specs::Rows::records_walk))]
pub fn step_of(bytes: &[u8], cursor: &Cursor) -> Option<Step>
    requires { IsWalk bytes.now cursor.now }
    ensures row { MatchOption result (rows_left bytes.now cursor.now ≡ [])
        (Leads bytes.now cursor.now) }
    ensures walk { IfSome result (λ step. IsWalk bytes.now step.next) }
{
    if cursor.members > 0 {
        member_step(bytes, cursor)
    } else if cursor.records > 0 {
        record_step(bytes, cursor)
    } else {
        None
    }
}

/// How many stored records the header of an entry counts, where it has one.
fn count_of(bytes: &[u8]) -> u16
    ensures { (n : ℕ) → field_at w16 bytes.now 2 ≡ Ok n → result ≡ n }
{
    match u16_at(bytes, 2) {
        Ok(count) => count,
        Err(_) => 0,
    }
}

/// Where a walk over the entry that these bytes spell begins: behind its header.
pub fn first_cursor(bytes: &[u8]) -> Cursor
    requires { IsEntryBytes bytes.now }
    ensures walk { IsWalk bytes.now result }
    ensures rows { (parts : List Stored) → IsEntry parts → bytes.now ≡ entry_bytes parts
        → rows_left bytes.now result ≡ user_rows parts }
    ensures read { rows_left bytes.now result ≡ rows_read (entry_at bytes.now) }
{
    Cursor {
        at: 8,
        records: count_of(bytes),
        slot: 0,
        members: 0,
        member_at: 0,
        txid: TxId::new(0),
    }
}
