ghost use Rattle.std.specs.Prelude.{◌≡◌, ◌<◌, ◌+◌, ◌++◌, ◌^◌, List, [], length, Ok, IfOk, OnOk, IsTrue};
ghost use Rattle.std.specs.List.{AllByRecursion};
ghost use Rattle.dl_rules_nodes.specs.Items.{Item};
ghost use Rattle.dl_rules_nodes.specs.Bookies.{gate_of};
ghost use Rattle.dl_rules_nodes.specs.Reading.{items_in, batch_at};
ghost use Rattle.dl_rules_nodes.specs.Loads.{batches_at};
ghost use Rattle.dl_items.specs.Reading.{verdict, IsBody};
ghost use Rattle.dl_restore.specs.Bodies.{bodies_of, FitFile, Spells, AllSpell, all_of};
ghost use Rattle.dl_restore.specs.Entries.{CountsEntry, BatchAdded, BatchesAdded};
ghost use Rattle.dl_restore.specs.Ledgers.{CountsLedger, LedgersAdded};

use crate::entries::count_entry;
use crate::ledgers::count_ledger;
use dl_items::body::{BEFORE_BODY, check_batch};
use dl_items::head::{BEFORE_ENTRY, Head};
use dl_items::read::read_item;
use dl_journal::batch::Batch;
use dl_journal::layout::MAGIC;
use dl_marks::entries::EntryTable;
use dl_marks::ledgers::LedgerTable;
use dl_marks::marks::Place;
use dl_rules_nodes::limits::LONGEST_BATCH;

/// Whether the tables had room for all items so far.
#[derive(Clone, Copy, Debug)]
pub(crate) struct Room {
    /// The table of entries had.
    pub(crate) entries: bool,
    /// The table of ledgers had.
    pub(crate) ledgers: bool,
}

/// Counts a durable item with this head, whose entry's bytes stand at this place, into each table that had room so far.
fn count_item(
    entries: &mut EntryTable,
    ledgers: &mut LedgerTable,
    had: Room,
    head: Head,
    place: Place,
) -> Room
    ensures entries { CountsEntry had.entries entries.old entries.new head place result.entries }
    ensures ledgers { CountsLedger had.ledgers ledgers.old ledgers.new head result.ledgers }
{
    let has_entries = count_entry(entries, had.entries, head, place);
    let has_ledgers = count_ledger(ledgers, had.ledgers, head);
    Room {
        entries: has_entries,
        ledgers: has_ledgers,
    }
}

/// Counts the items of a body that begins at this offset of its file, up to the first fault. It tells too whether there is none.
fn count_items(
    entries: &mut EntryTable,
    ledgers: &mut LedgerTable,
    had: Room,
    start: u64,
    body: &[u8],
) -> (Room, bool)
    requires { start + length body.now < 2 ^ 62 }
    ensures whole { IsTrue result.1 → verdict (items_in body.now) ≡ Ok tt }
    ensures entries { (before : List (List Item)) → (items : List Item) → Spells body.now items
        → start ≡ gate_of before + 13 → BatchesAdded before entries.old had.entries
        → BatchAdded before items entries.new result.0.entries }
    ensures ledgers { (before items : List Item) → Spells body.now items
        → LedgersAdded before ledgers.old had.ledgers
        → LedgersAdded (before ++ items) ledgers.new result.0.ledgers }
{
    let mut room = had;
    let mut at = start;
    let mut rest = body;
    while let Ok((item, more)) = read_item(rest) {
        let place = Place {
            at: at + BEFORE_ENTRY as u64,
            size: item.entry.len() as u32,
        };
        let has = count_item(entries, ledgers, room, item.head, place);
        room = has;
        at += (rest.len() - more.len()) as u64;
        rest = more;
    }
    (room, rest.is_empty())
}

/// Counts the items of a batch whose gate stands at this offset of its file. The error is the offset of the first fault: a body that
/// has one is read again, to find its place.
fn count_batch(
    entries: &mut EntryTable,
    ledgers: &mut LedgerTable,
    had: Room,
    gate: u64,
    body: &[u8],
) -> Result<Room, u64>
    requires { gate + BEFORE_BODY + length body.now < 2 ^ 62 }
    ensures exact { verdict (batch_at gate body.now) ≡ verdict result }
    // A body without a fault is the spelling of a batch.
    ensures found { OnOk result (IsBody body.now) }
    ensures entries { IfOk result (λ room. (before : List (List Item)) → (items : List Item)
        → Spells body.now items → gate + 13 ≡ gate_of before + 13
        → BatchesAdded before entries.old had.entries
        → BatchAdded before items entries.new room.entries) }
    ensures ledgers { IfOk result (λ room. (before items : List Item) → Spells body.now items
        → LedgersAdded before ledgers.old had.ledgers
        → LedgersAdded (before ++ items) ledgers.new room.ledgers) }
{
    let (room, is_whole) = count_items(entries, ledgers, had, gate + BEFORE_BODY, body);
    if is_whole && !body.is_empty() && body.len() <= LONGEST_BATCH {
        return Ok(room);
    }
    match check_batch(gate, body) {
        Ok(()) => Ok(room),
        Err(at) => Err(at),
    }
}

/// Counts the items of a journal's batches into empty tables, in one pass, and tells whether the tables had room for all. A table
/// without room for one has too few places for all. The error is the offset of the first fault in the file. It takes no memory.
pub(crate) fn count_batches(
    entries: &mut EntryTable,
    ledgers: &mut LedgerTable,
    batches: &[Batch],
) -> Result<Room, u64>
    requires file { FitFile batches.now }
    requires entries { entries.old ≡ [] }
    requires ledgers { ledgers.old ≡ [] }
    ensures exact { verdict (batches_at 8 (bodies_of batches.now)) ≡ verdict result }
    // Bodies without a fault are spellings of batches.
    ensures found { OnOk result (AllByRecursion IsBody (bodies_of batches.now)) }
    ensures entries { IfOk result (λ room. (items : List (List Item))
        → AllSpell (bodies_of batches.now) items → BatchesAdded items entries.new room.entries) }
    ensures ledgers { IfOk result (λ room. (items : List (List Item))
        → AllSpell (bodies_of batches.now) items
        → LedgersAdded (all_of items) ledgers.new room.ledgers) }
{
    let mut room = Room {
        entries: true,
        ledgers: true,
    };
    let mut gate = MAGIC as u64;
    for batch in batches {
        let body = batch.body.as_slice();
        match count_batch(entries, ledgers, room, gate, body) {
            Ok(now) => room = now,
            Err(at) => return Err(at),
        }
        gate += BEFORE_BODY + body.len() as u64;
    }
    Ok(room)
}
