ghost use Rattle.std.specs.Prelude.{◌≡◌};
ghost use Rattle.dl_marks.specs.Noting.{entry_noted, ledger_noted, EntryRoom, LedgerRoom, HasEntryRoom, HasLedgerRoom, EntryNoted, LedgerNoted, Noted};

use crate::entries::EntryTable;
use crate::ledgers::LedgerTable;
use crate::marks::{EntryKey, EntryMarks, LedgerMarks};
use dl_items::head::Head;

/// The marks of an entry of which one item more waits.
fn entry_noted(marks: Option<EntryMarks>, adding: bool) -> EntryMarks
    ensures { result ≡ entry_noted marks adding }
{
    match marks {
        Some(marks) => EntryMarks {
            adding: marks.adding || adding,
            coming: true,
            ..marks
        },
        None => EntryMarks {
            added: false,
            place: None,
            adding,
            coming: true,
        },
    }
}

/// The marks of a ledger of which one item more waits.
fn ledger_noted(marks: Option<LedgerMarks>, fencing: bool) -> LedgerMarks
    ensures { result ≡ ledger_noted marks fencing }
{
    match marks {
        Some(marks) => LedgerMarks {
            fencing: marks.fencing || fencing,
            ..marks
        },
        None => LedgerMarks {
            fenced: false,
            fencing,
            greatest: 0,
        },
    }
}

/// Notes that an item of an entry waits, an Add or a Copy.
fn note_entry(entries: &mut EntryTable, key: EntryKey, adding: bool)
    requires { EntryRoom entries.old key.ledger key.entry }
    ensures { EntryNoted entries.old entries.new key.ledger key.entry adding }
{
    let marks = entry_noted(entries.get(key), adding);
    entries.put(key, marks);
}

/// Notes that an item of a ledger waits, maybe a fence.
fn note_ledger(ledgers: &mut LedgerTable, ledger: u64, fencing: bool)
    requires { LedgerRoom ledgers.old ledger }
    ensures { LedgerNoted ledgers.old ledgers.new ledger fencing }
{
    let marks = ledger_noted(ledgers.get(ledger), fencing);
    ledgers.put(ledger, marks);
}

/// Notes in the tables that an item with this head waits. There is to be room for an entry and a ledger that are new.
pub fn note(entries: &mut EntryTable, ledgers: &mut LedgerTable, head: Head)
    requires entry { HasEntryRoom entries.old head }
    requires ledger { HasLedgerRoom ledgers.old head }
    ensures { Noted entries.old entries.new ledgers.old ledgers.new head }
{
    match head {
        Head::Add { ledger, entry, .. } => {
            note_entry(entries, EntryKey { ledger, entry }, true);
            note_ledger(ledgers, ledger, false);
        }
        Head::Copy { ledger, entry, .. } => {
            note_entry(entries, EntryKey { ledger, entry }, false);
            note_ledger(ledgers, ledger, false);
        }
        Head::Fence { ledger } => note_ledger(ledgers, ledger, true),
    }
}
