ghost use Rattle.std.specs.Prelude.{◌≡◌};
ghost use Rattle.dl_items.specs.Heads.{ledger_in, is_fence_head, count_of};
ghost use Rattle.dl_restore.specs.Ledgers.{ledger_added, AddsLedger, CountsLedger};

use dl_items::head::Head;
use dl_marks::ledgers::LedgerTable;
use dl_marks::marks::LedgerMarks;
use dl_rules_nodes::limits::MOST_LEDGERS;

/// The marks of a ledger with one durable item more.
fn ledger_added(marks: Option<LedgerMarks>, fence: bool, count: u64) -> LedgerMarks
    ensures { result ≡ ledger_added marks fence count }
{
    match marks {
        Some(marks) => LedgerMarks {
            fenced: marks.fenced || fence,
            fencing: false,
            greatest: marks.greatest.max(count),
        },
        None => LedgerMarks {
            fenced: fence,
            fencing: false,
            greatest: count,
        },
    }
}

/// Whether an item with this head fences its ledger.
fn is_fence(head: Head) -> bool
    ensures { result ≡ is_fence_head head }
{
    match head {
        Head::Add { .. } => false,
        Head::Copy { .. } => false,
        Head::Fence { .. } => true,
    }
}

/// Counts a durable item with this head into the marks of its ledger. Without room nothing changes.
fn add_ledger_of(ledgers: &mut LedgerTable, head: Head) -> bool
    ensures { AddsLedger ledgers.old ledgers.new head result }
{
    let ledger = head.ledger();
    let marks = ledgers.get(ledger);
    if marks.is_none() && ledgers.len() >= MOST_LEDGERS {
        return false;
    }
    ledgers.put(ledger, ledger_added(marks, is_fence(head), head.count()));
    true
}

/// The same where there was room for all ledgers before: else nothing changes.
pub(crate) fn count_ledger(ledgers: &mut LedgerTable, had_room: bool, head: Head) -> bool
    ensures { CountsLedger had_room ledgers.old ledgers.new head result }
{
    if !had_room {
        return false;
    }
    add_ledger_of(ledgers, head)
}
