ghost use Rattle.std.specs.Prelude.{◌≡◌, Some};
ghost use Rattle.dl_marks.specs.Places.{or_place};
ghost use Rattle.dl_restore.specs.Entries.{entry_added, AddsEntry, AddsEntryOf, CountsEntry};

use dl_items::head::Head;
use dl_marks::entries::EntryTable;
use dl_marks::marks::{EntryKey, EntryMarks, Place};
use dl_rules_nodes::limits::MOST_ENTRIES;

/// The marks of an entry with one durable item more.
fn entry_added(marks: Option<EntryMarks>, added: bool, place: Place) -> EntryMarks
    ensures { result ≡ entry_added marks added place }
{
    let (added, place) = match marks {
        Some(marks) => (marks.added || added, marks.place.or(Some(place))),
        None => (added, Some(place)),
    };
    EntryMarks {
        added,
        place,
        adding: false,
        coming: false,
    }
}

/// Counts a durable item of an entry, maybe an Add, whose entry's bytes stand at this place. Without room nothing changes.
fn add_entry(entries: &mut EntryTable, key: EntryKey, added: bool, place: Place) -> bool
    ensures { AddsEntry entries.old entries.new key.ledger key.entry added place result }
{
    let marks = entries.get(key);
    if marks.is_none() && entries.len() >= MOST_ENTRIES {
        return false;
    }
    entries.put(key, entry_added(marks, added, place));
    true
}

/// The same of the entry of an item with this head, where it has one.
fn add_entry_of(entries: &mut EntryTable, head: Head, place: Place) -> bool
    ensures { AddsEntryOf entries.old entries.new head place result }
{
    match head {
        Head::Add { ledger, entry, .. } => {
            add_entry(entries, EntryKey { ledger, entry }, true, place)
        }
        Head::Copy { ledger, entry, .. } => {
            add_entry(entries, EntryKey { ledger, entry }, false, place)
        }
        Head::Fence { .. } => true,
    }
}

/// The same where there was room for all entries before: else nothing changes.
pub(crate) fn count_entry(
    entries: &mut EntryTable,
    had_room: bool,
    head: Head,
    place: Place,
) -> bool
    ensures { CountsEntry had_room entries.old entries.new head place result }
{
    if !had_room {
        return false;
    }
    add_entry_of(entries, head, place)
}
