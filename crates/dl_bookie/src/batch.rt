ghost use Rattle.std.specs.Prelude.{◌≡◌, ◌≤◌, ◌<◌, ◌+◌, ◌++◌, true, vec_capacity, IsOk};
ghost use Rattle.dl_journal.specs.Settled.{Stands};
ghost use Rattle.dl_journal.specs.Commits.{spare_of, Committed};
ghost use Rattle.dl_bookie.specs.Pieces.{pieces_of, total_size, is_held, bytes_of};

use crate::filling::put_items;
use crate::queued::Queued;
use dl_depot::depot::Depot;
use dl_items::put::put_bytes;
use dl_journal::commit_fault::CommitFault;
use dl_journal::journal::Journal;
use dl_journal::layout::AROUND;
use dl_pool::pool::Pool;
use std::collections::VecDeque;

/// Room in a frame for the number and the length of a batch before its body.
const HEAD_ROOM: [u8; 12] = [0; 12];

/// Room in a frame for the gate behind it.
const GATE_ROOM: [u8; 1] = [0; 1];

/// Makes a frame of the items of a queue, with room before and behind them.
fn make_frame(pool: &Pool, queue: &VecDeque<Queued>, frame: &mut Vec<u8>)
    requires held { is_held pool.now (pieces_of queue.now.items) ≡ true }
    requires room { AROUND + total_size (pieces_of queue.now.items) ≤ vec_capacity frame.old }
    ensures items { frame.new.items
        ≡ HEAD_ROOM ++ (bytes_of pool.now (pieces_of queue.now.items) ++ GATE_ROOM) }
    ensures room { vec_capacity frame.old ≤ vec_capacity frame.new }
{
    frame.clear();
    put_bytes(frame, &HEAD_ROOM);
    put_items(pool, queue, frame);
    put_bytes(frame, &GATE_ROOM);
}

/// Commits one batch of the items of a queue, put together in the frame.
fn commit_items<D: Depot>(
    journal: &mut Journal,
    depot: &mut D,
    pool: &Pool,
    queue: &VecDeque<Queued>,
    frame: &mut Vec<u8>,
) -> Result<(), CommitFault>
    requires stands { Stands (D.view depot.old) journal.old }
    requires held { is_held pool.now (pieces_of queue.now.items) ≡ true }
    requires some { 0 < total_size (pieces_of queue.now.items) }
    requires spare { total_size (pieces_of queue.now.items) ≤ spare_of journal.old }
    requires room { AROUND + total_size (pieces_of queue.now.items) ≤ vec_capacity frame.old }
    ensures committed { Committed (D.view depot.old) (D.view depot.new) journal.old journal.new
        (bytes_of pool.now (pieces_of queue.now.items)) result }
    ensures room { vec_capacity frame.old ≤ vec_capacity frame.new }
{
    make_frame(pool, queue, frame);
    journal.commit(depot, frame.as_mut_slice())
}

/// Commits one batch of the items of a queue, which have so many bytes; where no item is in it no call is made. It takes no memory.
pub fn write_batch<D: Depot>(
    journal: &mut Journal,
    depot: &mut D,
    pool: &Pool,
    queue: &VecDeque<Queued>,
    bytes: usize,
    frame: &mut Vec<u8>,
) -> Result<(), CommitFault>
    requires stands { Stands (D.view depot.old) journal.old }
    requires held { is_held pool.now (pieces_of queue.now.items) ≡ true }
    requires size { bytes ≡ total_size (pieces_of queue.now.items) }
    requires spare { bytes ≤ spare_of journal.old }
    requires room { AROUND + bytes ≤ vec_capacity frame.old }
    ensures committed { 0 < bytes → Committed (D.view depot.old) (D.view depot.new)
        journal.old journal.new (bytes_of pool.now (pieces_of queue.now.items)) result }
    ensures idle { bytes ≡ 0
        → (depot.new ≡ depot.old) × ((journal.new ≡ journal.old) × IsOk result) }
    ensures room { vec_capacity frame.old ≤ vec_capacity frame.new }
{
    if bytes == 0 {
        return Ok(());
    }
    commit_items(journal, depot, pool, queue, frame)
}
