//! A storage node over a depot in memory.

ghost use Rattle.std.specs.Prelude.{◌≡◌, IfOk};
ghost use Rattle.dl_depot.specs.Memory.{view_by};
ghost use Rattle.dl_journal.specs.Settled.{Stands};
ghost use Rattle.dl_msg.specs.Whole.{IsWhole};
ghost use Rattle.dl_bookie.specs.Looking.{IsLook};

use super::telling::{tell, tell_fenced, tell_look, tell_msg, tell_numbers, tell_taken};
use dl_bookie::bookie::Bookie;
use dl_bookie::replies::Replies;
use dl_depot::depot::Depot;
use dl_depot::file_id::FileId;
use dl_depot::fuse::Outcome;
use dl_depot::memory::MemDepot;
use dl_depot::stopper::Stopper;
use dl_msg::msg::Msg;
use dl_text::hex::put_hex;
use dl_types::memory::NoMemory;
use std::alloc::Global;
use std::test::Fail;

/// The node's file.
pub fn file() -> FileId
    ensures { result ≡ 1 }
{
    FileId::new(1)
}

/// The most replies of a commit that are told by themselves.
const MOST_TOLD: usize = 16;

/// The client that sends the messages, and its session.
const CLIENT: u16 = 3;

const SESSION: u64 = 9;

/// A storage node, its depot, and room for replies. Its calls keep that the node's journal stands for the batches of its file.
#[derive(Drop)]
pub struct World {
    pub alloc: Global,
    pub depot: MemDepot,
    pub node: Bookie,
    replies: Replies,
}

/// Tells the replies of a commit, in order; of many only how many there are.
fn tell_replies(out: &mut Vec<u8>, replies: &mut Replies) -> Result<(), NoMemory> {
    if replies.len() > MOST_TOLD {
        return tell_numbers(out, "replies", &[replies.len() as u64]);
    }
    for _ in 0..replies.len() {
        if let Some(reply) = replies.pop_front() {
            tell_msg(out, &reply.msg)?;
        }
    }
    Ok(())
}

impl World {
    /// A node without an item. A stop comes inside the writing call behind so many, with this outcome.
    pub fn new(alloc: Global, calls: u64, outcome: Outcome) -> Result<World, Fail>
        ensures { IfOk result (λ w. Stands (view_by w.depot) w.node.journal) }
    {
        let mut depot = MemDepot::new(alloc)?;
        depot.fuse(file(), calls, outcome);
        let node = Bookie::make(alloc, &mut depot, file())?;
        let replies = Replies::new(alloc)?;
        Ok(World {
            alloc,
            depot,
            node,
            replies,
        })
    }

    /// A node that is loaded from a depot.
    fn load(alloc: Global, mut depot: MemDepot) -> Result<World, Fail>
        ensures { IfOk result (λ w. Stands (view_by w.depot) w.node.journal) }
    {
        let node = Bookie::load(alloc, &mut depot, file())?;
        let replies = Replies::new(alloc)?;
        Ok(World {
            alloc,
            depot,
            node,
            replies,
        })
    }

    /// The node that is loaded anew. A stop comes inside the writing call behind so many after the load, with this outcome.
    pub fn loaded(self, calls: u64, outcome: Outcome) -> Result<World, Fail>
        ensures { IfOk result (λ w. Stands (view_by w.depot) w.node.journal) }
    {
        let World {
            alloc,
            mut depot,
            node: _node,
            replies: _replies,
        } = self;
        depot.fuse(file(), calls.saturating_add(1), outcome);
        World::load(alloc, depot)
    }

    /// The bytes of the node's file, of which there are few, and the node that is loaded from it.
    pub fn bytes(self) -> Result<(Vec<u8>, World), Fail>
        ensures { IfOk result (λ w. Stands (view_by w.1.depot) w.1.node.journal) }
    {
        let World {
            alloc,
            mut depot,
            node: _node,
            replies: _replies,
        } = self;
        let mut bytes = vec![in alloc; 0u8; 1024]?;
        let count = depot.read(file(), 0, bytes.as_mut_slice())?;
        bytes.truncate(count);
        Ok((bytes, World::load(alloc, depot)?))
    }

    /// A node that is loaded from a file of these bytes.
    pub fn of_file(alloc: Global, bytes: &[u8]) -> Result<World, Fail>
        ensures { IfOk result (λ w. Stands (view_by w.depot) w.node.journal) }
    {
        let mut depot = MemDepot::new(alloc)?;
        depot.write_at(file(), 0, bytes)?;
        World::load(alloc, depot)
    }

    /// Gives a message to the node, and tells what becomes of it. It is true where a look answers it.
    pub fn take(&mut self, out: &mut Vec<u8>, msg: &Msg) -> Result<bool, NoMemory>
        requires whole { IsWhole msg.now }
        requires stands { Stands (view_by self.old.depot) self.old.node.journal }
        ensures { Stands (view_by self.new.depot) self.new.node.journal }
    {
        let taken = self.node.take(CLIENT, SESSION, msg);
        tell_taken(out, &taken)
    }

    /// Tells what a look answers.
    pub fn look(&mut self, out: &mut Vec<u8>, msg: &Msg) -> Result<(), NoMemory>
        requires look { IsLook msg.now }
        requires stands { Stands (view_by self.old.depot) self.old.node.journal }
        ensures { Stands (view_by self.new.depot) self.new.node.journal }
    {
        let look = self.node.look(self.alloc, &mut self.depot, msg);
        tell_look(out, &look)
    }

    /// Commits what waits, and tells the replies.
    pub fn commit(&mut self, out: &mut Vec<u8>) -> Result<(), NoMemory>
        requires { Stands (view_by self.old.depot) self.old.node.journal }
        ensures { Stands (view_by self.new.depot) self.new.node.journal }
    {
        if self.node.queued() == 0 {
            return tell(out, "nothing");
        }
        match self.node.commit(&mut self.depot, &mut self.replies) {
            Ok(()) => tell_replies(out, &mut self.replies),
            Err(_) => tell(out, "fault"),
        }
    }

    /// Tells whether an entry is durable.
    pub fn holds(&self, out: &mut Vec<u8>, ledger: u64, entry: u64) -> Result<(), NoMemory> {
        let word = if self.node.holds(ledger, entry) {
            "holds"
        } else {
            "lacks"
        };
        tell(out, word)
    }

    /// Tells whether a fence is durable.
    pub fn fenced(&self, out: &mut Vec<u8>, ledger: u64) -> Result<(), NoMemory> {
        tell_fenced(out, self.node.fenced(ledger))
    }

    /// Tells how many replies wait.
    pub fn waits(&self, out: &mut Vec<u8>) -> Result<(), NoMemory> {
        tell_numbers(out, "waits", &[u64::from(self.node.queued())])
    }

    /// Tells the bytes of the item that waits at a place of the queue.
    pub fn waiting(&self, out: &mut Vec<u8>, place: u32) -> Result<(), NoMemory> {
        if place >= self.node.queued() {
            return tell(out, "nothing");
        }
        let Some(parts) = self.node.waiting(place) else {
            return tell(out, "none");
        };
        let mut bytes = Vec::new(self.alloc);
        for part in parts {
            bytes.extend_from_slice(part)?;
        }
        put_hex(out, b' ', &bytes)
    }
}
