ghost use Rattle.std.specs.Prelude.{◌≡◌, ◌≤◌, ◌+◌, ◌<◌, ◌↔◌, true, length, option_to_list, vec_capacity, IsErr, IfOk, OnErr};
ghost use Rattle.dl_pool.specs.Pools.{bytes_at, spare, pages_of, Adds};
ghost use Rattle.dl_rules_nodes.specs.Items.{item_bytes, item_length};
ghost use Rattle.dl_items.specs.Heads.{item_of};
ghost use Rattle.dl_items.specs.Frames.{HasRoom, Grows};
ghost use Rattle.dl_bookie.specs.Pieces.{pieces_of, total_size, size_is, is_held, piece_bytes, bytes_of};

use crate::queued::{Piece, Queued};
use dl_items::head::{BEFORE_ENTRY, Head};
use dl_items::put::{put_bytes, put_item};
use dl_pool::pool::Pool;
use dl_pool::pool_full::PoolFull;
use dl_pool::span::Span;
use dl_record::limits::ENTRY_MAX;
use std::collections::VecDeque;

/// Puts an item into the pool, by way of the frame. It is full exactly where fewer pages are free than the item needs.
pub fn store_item(
    pool: &mut Pool,
    frame: &mut Vec<u8>,
    head: Head,
    bytes: &[u8],
) -> Result<Span, PoolFull>
    requires short { length bytes.now ≤ ENTRY_MAX }
    requires room { BEFORE_ENTRY + ENTRY_MAX ≤ vec_capacity frame.old }
    ensures room { vec_capacity frame.old ≤ vec_capacity frame.new }
    ensures full { IsErr result
        ↔ (spare pool.old < pages_of (item_length (item_of head bytes.now))) }
    ensures ok { IfOk result
        (λ span. Adds pool.old span (item_bytes (item_of head bytes.now)) pool.new) }
    ensures err { OnErr result (pool.new ≡ pool.old) }
{
    frame.clear();
    put_item(frame, head, bytes);
    pool.put(frame.as_slice())
}

/// Adds the bytes of a piece to a frame, page by page.
fn put_piece(pool: &Pool, piece: &Piece, frame: &mut Vec<u8>)
    requires held { size_is (bytes_at pool.now piece.now.span) piece.now.size ≡ true }
    requires room { HasRoom frame.old piece.now.size }
    ensures { Grows frame.old frame.new (piece_bytes pool.now piece.now) }
{
    for part in pool.parts(&piece.span) {
        put_bytes(frame, part);
    }
}

/// Adds the item of a reply, where it has one.
fn put_queued(pool: &Pool, queued: &Queued, frame: &mut Vec<u8>)
    requires held { is_held pool.now (option_to_list queued.now.piece) ≡ true }
    requires room { HasRoom frame.old (total_size (option_to_list queued.now.piece)) }
    ensures { Grows frame.old frame.new (bytes_of pool.now (option_to_list queued.now.piece)) }
{
    if let Some(piece) = &queued.piece {
        put_piece(pool, piece, frame);
    }
}

/// Adds the items of a queue to a frame that has room for them.
pub fn put_items(pool: &Pool, queue: &VecDeque<Queued>, frame: &mut Vec<u8>)
    requires held { is_held pool.now (pieces_of queue.now.items) ≡ true }
    requires room { HasRoom frame.old (total_size (pieces_of queue.now.items)) }
    ensures { Grows frame.old frame.new (bytes_of pool.now (pieces_of queue.now.items)) }
{
    for index in 0..queue.len() {
        put_queued(pool, &queue[index], frame);
    }
}
