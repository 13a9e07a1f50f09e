ghost use Rattle.std.specs.Prelude.{◌≡◌, Some};
ghost use Rattle.dl_marks.specs.Places.{or_place};
ghost use Rattle.dl_marks.specs.Keeping.{EntryKept, LedgerKept, Kept};

use crate::entries::EntryTable;
use crate::ledgers::LedgerTable;
use crate::marks::{EntryKey, EntryMarks, LedgerMarks, Place};
use dl_items::head::Head;

/// The first of two places.
fn place_kept(place: Option<Place>, now: Place) -> Option<Place>
    ensures { result ≡ or_place place (Some now) }
{
    match place {
        Some(place) => Some(place),
        None => Some(now),
    }
}

/// Keeps that an item of an entry became durable, maybe an Add, with the place of the entry's bytes.
fn keep_entry(entries: &mut EntryTable, key: EntryKey, added: bool, place: Place)
    ensures { EntryKept entries.old entries.new key.ledger key.entry added place }
{
    if let Some(marks) = entries.get(key) {
        entries.put(
            key,
            EntryMarks {
                added: marks.added || added,
                place: place_kept(marks.place, place),
                adding: false,
                coming: false,
            },
        );
    }
}

/// Keeps that an item of a ledger became durable, maybe a fence, with the confirmed count that it carries.
fn keep_ledger(ledgers: &mut LedgerTable, ledger: u64, fence: bool, count: u64)
    ensures { LedgerKept ledgers.old ledgers.new ledger fence count }
{
    if let Some(marks) = ledgers.get(ledger) {
        ledgers.put(
            ledger,
            LedgerMarks {
                fenced: marks.fenced || fence,
                fencing: !fence && marks.fencing,
                greatest: marks.greatest.max(count),
            },
        );
    }
}

/// Keeps in the tables that an item with this head became durable, which was noted when it came. The bytes of its entry, where
/// it has one, stand at this place of the file.
pub fn keep(entries: &mut EntryTable, ledgers: &mut LedgerTable, head: Head, place: Place)
    ensures { Kept entries.old entries.new ledgers.old ledgers.new head place }
{
    match head {
        Head::Add {
            ledger,
            entry,
            count,
        } => {
            keep_entry(entries, EntryKey { ledger, entry }, true, place);
            keep_ledger(ledgers, ledger, false, count);
        }
        Head::Copy {
            ledger,
            entry,
            count,
        } => {
            keep_entry(entries, EntryKey { ledger, entry }, false, place);
            keep_ledger(ledgers, ledger, false, count);
        }
        Head::Fence { ledger } => keep_ledger(ledgers, ledger, true, 0),
    }
}
