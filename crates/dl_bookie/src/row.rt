ghost use Rattle.std.specs.Prelude.{◌≡◌};
ghost use Rattle.dl_bookie.specs.Rows.{place_by, is_there, marked_lac, is_fenced, is_fencing, greatest_of, marked_add_row, marked_copy_row, marked_fence_row};

use dl_marks::marks::{EntryMarks, LedgerMarks, Place};
use dl_msg::msg::Msg;

/// What a message does, by the marks of its entry and its ledger.
#[derive(Debug, Drop)]
pub enum Row {
    /// It is answered at once.
    Answers(Msg),
    /// The reply waits for an item that is queued.
    Queues(Msg),
    /// The reply waits with an item of its own.
    Stores(Msg),
}

/// Where the entry of its first durable item stands.
pub fn place_by(marks: Option<EntryMarks>) -> Option<Place>
    ensures { result ≡ place_by marks }
{
    match marks {
        Some(marks) => marks.place,
        None => None,
    }
}

/// Whether an item of the entry is durable.
pub fn is_there(marks: Option<EntryMarks>) -> bool
    ensures { result ≡ is_there marks }
{
    match marks {
        Some(marks) => marks.place.is_some(),
        None => false,
    }
}

/// Whether a fence of the ledger is durable.
pub fn is_fenced(marks: Option<LedgerMarks>) -> bool
    ensures { result ≡ is_fenced marks }
{
    match marks {
        Some(marks) => marks.fenced,
        None => false,
    }
}

/// Whether a fence of the ledger waits.
fn is_fencing(marks: Option<LedgerMarks>) -> bool
    ensures { result ≡ is_fencing marks }
{
    match marks {
        Some(marks) => marks.fencing,
        None => false,
    }
}

/// The greatest confirmed count that a durable item of the ledger carries, 0 where there is none.
pub fn greatest_of(marks: Option<LedgerMarks>) -> u64
    ensures { result ≡ greatest_of marks }
{
    match marks {
        Some(marks) => marks.greatest,
        None => 0,
    }
}

/// The greatest confirmed count that is known of a ledger, and whether it is fenced.
pub fn lac_of(known: Option<LedgerMarks>, tag: u32, ledger: u64) -> Msg
    ensures { result ≡ marked_lac known tag ledger }
{
    Msg::LacIs {
        tag,
        ledger,
        fenced: is_fenced(known),
        count: greatest_of(known),
    }
}

/// What an Add does: the first row of the table that fits.
pub fn add_row(
    marks: Option<EntryMarks>,
    known: Option<LedgerMarks>,
    ledger: u64,
    entry: u64,
) -> Row
    ensures { result ≡ marked_add_row marks known ledger entry }
{
    let (added, adding) = match marks {
        Some(marks) => (marks.added, marks.adding),
        None => (false, false),
    };
    if added {
        Row::Answers(Msg::AddOk { ledger, entry })
    } else if is_fenced(known) {
        Row::Answers(Msg::AddFenced { ledger, entry })
    } else if adding {
        Row::Queues(Msg::AddOk { ledger, entry })
    } else if is_fencing(known) {
        Row::Queues(Msg::AddFenced { ledger, entry })
    } else {
        Row::Stores(Msg::AddOk { ledger, entry })
    }
}

/// What a Copy does, which passes a fence.
pub fn copy_row(marks: Option<EntryMarks>, tag: u32, ledger: u64, entry: u64) -> Row
    ensures { result ≡ marked_copy_row marks tag ledger entry }
{
    match marks {
        Some(marks) => {
            if marks.place.is_some() {
                Row::Answers(Msg::CopyOk { tag, ledger, entry })
            } else if marks.coming {
                Row::Queues(Msg::CopyOk { tag, ledger, entry })
            } else {
                Row::Stores(Msg::CopyOk { tag, ledger, entry })
            }
        }
        None => Row::Stores(Msg::CopyOk { tag, ledger, entry }),
    }
}

/// What an AskLac with a fence does. A reply that waits has no count yet: it is told after the batch that it waits for.
pub fn fence_row(known: Option<LedgerMarks>, tag: u32, ledger: u64) -> Row
    ensures { result ≡ marked_fence_row known tag ledger }
{
    if is_fenced(known) {
        Row::Answers(Msg::LacIs {
            tag,
            ledger,
            fenced: true,
            count: greatest_of(known),
        })
    } else if is_fencing(known) {
        Row::Queues(Msg::LacIs {
            tag,
            ledger,
            fenced: true,
            count: 0,
        })
    } else {
        Row::Stores(Msg::LacIs {
            tag,
            ledger,
            fenced: true,
            count: 0,
        })
    }
}
