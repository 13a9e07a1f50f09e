ghost use Rattle.std.specs.Prelude.{◌≡◌, ◌≤◌, ◌<◌, ◌+◌, [], ◌∷◌, ◌++◌, true, length, map, option_to_list};
ghost use Rattle.std.specs.VecDeque.{deque_capacity};
ghost use Rattle.dl_pool.specs.Pools.{spare};
ghost use Rattle.dl_bookie.specs.Pieces.{pieces_of, total_pages, is_held};
ghost use Rattle.dl_bookie.specs.Releasing.{told_by, reply_for, FreesPiece};

use crate::queued::{Piece, Queued};
use crate::replies::{Replies, Reply};
use crate::row::greatest_of;
use dl_marks::ledgers::LedgerTable;
use dl_msg::msg::Msg;
use dl_pool::pool::Pool;
use dl_rules_nodes::limits::MOST_WAITING;
use std::collections::VecDeque;

/// A reply as it leaves: a count that waited is told now.
fn told_by(ledgers: &LedgerTable, reply: Msg) -> Msg
    ensures { result ≡ told_by ledgers.now reply }
{
    match reply {
        Msg::LacIs {
            tag,
            ledger,
            fenced,
            ..
        } => Msg::LacIs {
            tag,
            ledger,
            fenced,
            count: greatest_of(ledgers.get(ledger)),
        },
        other => other,
    }
}

/// Frees the piece of a reply, where it has one.
fn free_piece(pool: &mut Pool, piece: Option<Piece>)
    requires { is_held pool.old (option_to_list piece) ≡ true }
    ensures { FreesPiece pool.old pool.new piece }
{
    if let Some(piece) = piece {
        pool.free(piece.span);
    }
}

/// Frees the pieces of a queue, and gives its replies in order. The queue is then empty.
pub fn release(
    pool: &mut Pool,
    ledgers: &LedgerTable,
    queue: &mut VecDeque<Queued>,
    replies: &mut Replies,
)
    requires held { is_held pool.old (pieces_of queue.old.items) ≡ true }
    requires room { length replies.old + length queue.old.items ≤ MOST_WAITING }
    ensures queue { queue.new.items ≡ [] }
    ensures capacity { deque_capacity queue.new ≡ deque_capacity queue.old }
    ensures pages { spare pool.new ≡ spare pool.old + total_pages (pieces_of queue.old.items) }
    ensures replies { replies.new ≡ replies.old ++ map (reply_for ledgers.now) queue.old.items }
{
    'replies: while let Some(
        Queued {
            client,
            session,
            reply,
            piece,
        },
    ) = queue.pop_front()
    {
        let msg = told_by(ledgers, reply);
        replies.push(Reply {
            client,
            session,
            msg,
        });
        free_piece(pool, piece);
    }
}
