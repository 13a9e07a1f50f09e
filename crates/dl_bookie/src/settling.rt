ghost use Rattle.std.specs.Prelude.{◌≡◌, ◌≤◌, ◌<◌, ◌+◌, ◌-◌, ◌^◌, ℕ, length, option_to_list};
ghost use Rattle.dl_bookie.specs.Pieces.{pieces_of, total_size};
ghost use Rattle.dl_bookie.specs.Settling.{entry_place, KeepsPiece, SettlesQueue};

use crate::queued::Queued;
use dl_items::head::BEFORE_ENTRY;
use dl_marks::entries::EntryTable;
use dl_marks::keeping::keep;
use dl_marks::ledgers::LedgerTable;
use dl_marks::marks::Place;
use std::collections::VecDeque;

/// Where the entry of an item stands that has so many bytes and begins at this offset.
fn entry_place(at: u64, size: usize) -> Place
    requires at { at + BEFORE_ENTRY < 2 ^ 64 }
    requires size { size < 2 ^ 32 }
    ensures { result ≡ entry_place at size }
{
    Place {
        at: at + BEFORE_ENTRY as u64,
        size: size.saturating_sub(BEFORE_ENTRY) as u32,
    }
}

/// Keeps that the item of a reply became durable at this offset, where it has one, and tells where the next one begins.
fn settle_queued(
    entries: &mut EntryTable,
    ledgers: &mut LedgerTable,
    queued: &Queued,
    at: u64,
) -> u64
    requires at { at + total_size (option_to_list queued.now.piece) + BEFORE_ENTRY < 2 ^ 64 }
    requires size { total_size (option_to_list queued.now.piece) < 2 ^ 32 }
    ensures keeps { KeepsPiece entries.old entries.new ledgers.old ledgers.new queued.now.piece at }
    ensures end { result ≡ at + total_size (option_to_list queued.now.piece) }
{
    match &queued.piece {
        Some(piece) => {
            keep(entries, ledgers, piece.head, entry_place(at, piece.size));
            at + piece.size as u64
        }
        None => at,
    }
}

/// Keeps in the tables that the items of a queue became durable, of which the first begins at this offset.
pub fn settle(
    entries: &mut EntryTable,
    ledgers: &mut LedgerTable,
    queue: &VecDeque<Queued>,
    at: u64,
)
    requires at { at < 2 ^ 32 }
    requires size { total_size (pieces_of queue.now.items) < 2 ^ 32 }
    ensures { SettlesQueue entries.old entries.new ledgers.old ledgers.new queue.now.items at }
{
    let mut at = at;
    for index in 0..queue.len() {
        at = settle_queued(entries, ledgers, &queue[index], at);
    }
}
