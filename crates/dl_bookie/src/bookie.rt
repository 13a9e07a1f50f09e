ghost use Rattle.std.specs.Prelude.{◌≡◌, ◌≤◌, ◌<◌, ◌+◌, ◌++◌, ◌∷◌, ◌↔◌, [], ℕ, nat_lt, false, true, length, Some, None, IfOk, OnErr, IsErrOf, vec_capacity};
ghost use Rattle.std.specs.List.{list_any};
ghost use Rattle.std.specs.VecDeque.{deque_capacity};
ghost use Rattle.dl_depot.specs.View.{Keeps};
ghost use Rattle.dl_depot.specs.Device.{Looks};
ghost use Rattle.dl_journal.specs.Limits.{journal_limit};
ghost use Rattle.dl_journal.specs.Settled.{Stands};
ghost use Rattle.dl_journal.specs.Commits.{spare_of, IsEmpty, CountsCommit};
ghost use Rattle.dl_pool.specs.Pools.{empty_pool};
ghost use Rattle.dl_msg.specs.Whole.{IsWhole};
ghost use Rattle.dl_rules_nodes.specs.Limits.{pool_pages};
ghost use Rattle.dl_rules_nodes.specs.Items.{item_length, is_entry};
ghost use Rattle.dl_rules_nodes.specs.Bookies.{Bookie as Node, after, table_row, durable, has_fence, named_entry};
ghost use Rattle.dl_items.specs.Heads.{item_of, ledger_in, entry_named};
ghost use Rattle.dl_bookie.specs.Pieces.{Fits};
ghost use Rattle.dl_bookie.specs.Standing.{StandsFor, HasEntry};
ghost use Rattle.dl_bookie.specs.Taking.{lack_of, outcome_of};
ghost use Rattle.dl_bookie.specs.Storing.{names_new, HasRoom, Stored};
ghost use Rattle.dl_bookie.specs.Following.{Follows};
ghost use Rattle.dl_bookie.specs.Committing.{IsSpoilt, Commits};
ghost use Rattle.dl_bookie.specs.Looking.{IsLook, LooksUp, CountsLook, kept_after};
ghost use Rattle.dl_bookie.specs.Making.{IsNodeFile, Makes};
ghost use Rattle.dl_bookie.specs.Loading.{LoadsNode};
ghost use Rattle.dl_bookie.specs.Waiting.{item_at, JoinTo};

use crate::batch::write_batch;
use crate::filling::store_item;
use crate::load_fault::LoadFault;
use crate::look_fault::LookFault;
use crate::queued::{Piece, Queued};
use crate::reading::read_back;
use crate::releasing::release;
use crate::replies::Replies;
use crate::row::{Row, add_row, copy_row, fence_row, is_fenced, is_there, lac_of, place_by};
use crate::settling::settle;
use crate::taken::Taken;
use dl_depot::depot::Depot;
use dl_depot::file_id::FileId;
use dl_items::head::Head;
use dl_journal::commit_fault::CommitFault;
use dl_journal::journal::Journal;
use dl_journal::layout::AROUND;
use dl_marks::entries::EntryTable;
use dl_marks::ledgers::LedgerTable;
use dl_marks::marks::EntryKey;
use dl_marks::noting::note;
use dl_msg::msg::Msg;
use dl_msg::resource::Resource;
use dl_pool::pages_of;
use dl_pool::parts::Parts;
use dl_pool::pool::Pool;
use dl_record::limits::ENTRY_MAX;
use dl_restore::restore::restore;
use dl_rules_nodes::limits::{LONGEST_BATCH, MOST_ENTRIES, MOST_LEDGERS, MOST_WAITING, POOL_PAGES};
use dl_types::memory::NoMemory;
use std::alloc::Global;
use std::collections::VecDeque;
use std::marker::Model;

/// The bytes of the frame of the longest batch.
pub const FRAME: usize = LONGEST_BATCH + AROUND;

/// What a storage node takes of memory beside its tables: the pages of the pool, the places of the queue, and the frame.
#[derive(Drop)]
struct Room {
    pool: Pool,
    queue: VecDeque<Queued>,
    frame: Vec<u8>,
}

impl Room {
    /// Takes it all. It is reserved, and nothing of it is written.
    fn new(alloc: Global) -> Result<Room, NoMemory>
        ensures pool { IfOk result (λ r. r.pool ≡ empty_pool pool_pages) }
        ensures queue { IfOk result (λ r. r.queue.items ≡ []) }
        ensures places { IfOk result (λ r. MOST_WAITING ≤ deque_capacity r.queue) }
        ensures frame { IfOk result (λ r. FRAME ≤ vec_capacity r.frame) }
    {
        let pool = Pool::new(alloc, POOL_PAGES)?;
        let queue = VecDeque::with_capacity(alloc, MOST_WAITING)?;
        let frame = Vec::with_capacity(alloc, FRAME)?;
        Ok(Room { pool, queue, frame })
    }
}

/// A storage node. What is durable stands in its journal alone, and what waits for the next commit in the pages of its pool; of each
/// entry and each ledger it keeps marks in tables. All its memory is taken when it is made or loaded.
///
/// It stands for a list of durable batches of items and a queue of replies that wait, some with an item. Contracts speak of that list
/// and that queue.
#[derive(Drop)]
pub struct Bookie {
    journal: Journal,
    /// The journal's file.
    file: FileId,
    pool: Pool,
    entries: EntryTable,
    ledgers: LedgerTable,
    queue: VecDeque<Queued>,
    /// How many bytes the queued items have.
    bytes: usize,
    /// The frame of a batch is put together here, and before that each item by itself.
    frame: Vec<u8>,
    /// A call on the device has failed.
    failed: bool,
}

impl Model for Bookie {
    ghost use Rattle.std.specs.Prelude.{vec_capacity};
    ghost use Rattle.std.specs.VecDeque.{deque_capacity};
    ghost use Rattle.dl_bookie.specs.Facts.{BookieFacts};
    ghost use Rattle.dl_bookie.specs.Pieces.{IsKept};

    ghost Value = { BookieFacts };

    ghost view = { λ b. record {
      journal = b.journal;
      pool = b.pool;
      entries = b.entries;
      ledgers = b.ledgers;
      queue = b.queue.items;
      bytes = b.bytes;
      failed = b.failed;
    } };

    ghost invariant = { λ b. IsKept b.journal b.file b.pool b.queue.items b.bytes b.failed
        (vec_capacity b.frame) (deque_capacity b.queue) };
}

impl Bookie {
    /// A storage node of a journal, whose tables these are, and which nothing waits for.
    fn of(
        journal: Journal,
        file: FileId,
        entries: EntryTable,
        ledgers: LedgerTable,
        room: Room,
    ) -> Bookie
        requires file { journal.file ≡ file }
        requires works { journal.failed ≡ false }
        requires below { journal.gate < journal_limit }
        requires pool { room.pool ≡ empty_pool pool_pages }
        requires queue { room.queue.items ≡ [] }
        requires places { MOST_WAITING ≤ deque_capacity room.queue }
        requires frame { FRAME ≤ vec_capacity room.frame }
        ensures { result ≡ record {
          journal = journal;
          pool = empty_pool pool_pages;
          entries = entries;
          ledgers = ledgers;
          queue = [];
          bytes = 0;
          failed = false;
        } }
    {
        let Room { pool, queue, frame } = room;
        Bookie {
            journal,
            file,
            pool,
            entries,
            ledgers,
            queue,
            bytes: 0,
            frame,
            failed: false,
        }
    }

    /// Makes a storage node without an item, and its journal in this file, which is to be empty. Files 1 to 16 are those of storage
    /// nodes. All memory is taken first: `NoMemory` comes where it runs out, and then no call is made. `Device` comes only where the
    /// file's count of faults rose, or stands at the greatest u64; the file may then be no journal. No other fault comes.
    pub fn make<D: Depot>(alloc: Global, depot: &mut D, file: FileId) -> Result<Bookie, LoadFault>
        requires empty { IsEmpty (D.view depot.old) file }
        requires file { IsNodeFile file }
        ensures { Makes (D.view depot.old) (D.view depot.new) file result }
    {
        let entries = match EntryTable::new(alloc) {
            Ok(entries) => entries,
            Err(_) => return Err(LoadFault::NoMemory),
        };
        let ledgers = match LedgerTable::new(alloc) {
            Ok(ledgers) => ledgers,
            Err(_) => return Err(LoadFault::NoMemory),
        };
        let room = match Room::new(alloc) {
            Ok(room) => room,
            Err(_) => return Err(LoadFault::NoMemory),
        };
        match Journal::make(depot, file) {
            Ok(journal) => Ok(Bookie::of(journal, file, entries, ledgers, room)),
            Err(_) => Err(LoadFault::Device),
        }
    }

    /// Loads a storage node from the journal in a file: it stands for the batches in force there. All memory of its own is taken
    /// first: where that runs out, no call is made. It is meant for a start after a stop.
    ///
    /// `TooLarge` comes exactly where the file has more than 268,435,456 bytes, `Damaged` exactly where it has no more and its bytes
    /// break the grammar: at the first part that breaks the journal's layout, anywhere in the file, or else at the first byte at which
    /// an item, or the entry in it, breaks its own. `Crowded` comes exactly where the items have more than 65,536 entries (`Index`), or
    /// else more than 4,096 ledgers (`Ledgers`). `Device` comes only where the file's count of faults rose, or stands at the greatest
    /// u64; `NoMemory` where memory runs out.
    pub fn load<D: Depot>(alloc: Global, depot: &mut D, file: FileId) -> Result<Bookie, LoadFault>
        ensures { LoadsNode (D.view depot.old) (D.view depot.new) file result }
    {
        let mut entries = match EntryTable::new(alloc) {
            Ok(entries) => entries,
            Err(_) => return Err(LoadFault::NoMemory),
        };
        let mut ledgers = match LedgerTable::new(alloc) {
            Ok(ledgers) => ledgers,
            Err(_) => return Err(LoadFault::NoMemory),
        };
        let room = match Room::new(alloc) {
            Ok(room) => room,
            Err(_) => return Err(LoadFault::NoMemory),
        };
        let (journal, batches) = match Journal::load(alloc, depot, file) {
            Ok(loaded) => loaded,
            Err(fault) => return Err(LoadFault::of_journal(fault)),
        };
        match restore(&batches, &mut entries, &mut ledgers) {
            Ok(()) => Ok(Bookie::of(journal, file, entries, ledgers, room)),
            Err(fault) => Err(LoadFault::of_items(fault)),
        }
    }

    /// How many replies wait.
    pub fn queued(&self) -> u32
        ensures { result ≡ length self.now.queue }
    {
        self.queue.len() as u32
    }

    /// Whether a fence of a ledger is durable.
    pub fn fenced(&self, ledger: u64) -> bool
        ensures { (b : Node) → StandsFor b self.now → result ≡ has_fence b ledger }
    {
        is_fenced(self.ledgers.get(ledger))
    }

    /// Whether an Add or a Copy of an entry is durable.
    pub fn holds(&self, ledger: u64, entry: u64) -> bool
        ensures { (b : Node) → StandsFor b self.now
            → result ≡ list_any (is_entry ledger entry) (durable b) }
    {
        is_there(self.entries.get(EntryKey { ledger, entry }))
    }

    /// The item of the reply at a place of the queue, as slices of the pool's own pages, which join to its bytes. Places count from 0,
    /// in the order of queuing. It is none exactly where that reply has no item of its own. It takes no memory.
    pub fn waiting(&self, place: u32) -> Option<Parts<'_>>
        requires { place < length self.now.queue }
        ensures { (b : Node) → StandsFor b self.now → JoinTo (item_at b.queue place) result }
    {
        match &self.queue[place as usize].piece {
            Some(piece) => Some(self.pool.parts(&piece.span)),
            None => None,
        }
    }

    /// Whether the journal has no room for an item of so many bytes behind those that wait.
    fn lacks_bytes(&self, size: usize) -> bool
        requires { size ≤ 1048605 }
        ensures { result ≡ nat_lt (spare_of self.now.journal) (self.now.bytes + size) }
    {
        self.journal.spare() < (self.bytes + size) as u64
    }

    /// Whether the item with this head has an entry that is in no table.
    fn names_new(&self, head: Head) -> bool
        ensures { result ≡ names_new self.now.entries head }
    {
        match head {
            Head::Add { ledger, entry, .. } => {
                self.entries.get(EntryKey { ledger, entry }).is_none()
            }
            Head::Copy { ledger, entry, .. } => {
                self.entries.get(EntryKey { ledger, entry }).is_none()
            }
            Head::Fence { .. } => false,
        }
    }

    /// What there is no room for, in the order of the tests: so many bytes of an item with this head, its entry, its ledger, the
    /// reply, the batch.
    fn lack(&self, head: Head, size: usize) -> Option<Resource>
        requires { size ≤ 1048605 }
        ensures what { result ≡ lack_of self.now head size }
        ensures fits { Fits self.now.pool self.now.queue self.now.bytes }
    {
        let index_full = self.entries.len() >= MOST_ENTRIES && self.names_new(head);
        let ledgers_full = self.ledgers.len() >= MOST_LEDGERS
            && self.ledgers.get(head.ledger()).is_none();
        if (self.pool.spare() as usize) < pages_of(size) {
            Some(Resource::Pool)
        } else if index_full {
            Some(Resource::Index)
        } else if ledgers_full {
            Some(Resource::Ledgers)
        } else if self.queue.len() >= MOST_WAITING {
            Some(Resource::Queue)
        } else if self.lacks_bytes(size) {
            Some(Resource::Journal)
        } else {
            None
        }
    }

    /// Queues a reply with an item of its own, for which there is room.
    fn store(&mut self, client: u16, session: u64, reply: Msg, head: Head, bytes: &[u8])
        requires short { length bytes.now ≤ ENTRY_MAX }
        requires room { HasRoom self.old head (item_length (item_of head bytes.now)) }
        ensures { Stored self.old self.new client session reply head bytes.now }
    {
        let size = head.size(bytes);
        let Ok(span) = store_item(&mut self.pool, &mut self.frame, head, bytes) else {
            return;
        };
        note(&mut self.entries, &mut self.ledgers, head);
        self.bytes += size;
        self.queue.push_back_reserved(Queued {
            client,
            session,
            reply,
            piece: Some(Piece { head, size, span }),
        });
    }

    /// Queues a reply without an item, for which there is a place.
    fn wait(&mut self, client: u16, session: u64, reply: Msg)
        requires { length self.old.queue < MOST_WAITING }
        ensures { self.new ≡ record self.old {
          queue = self.old.queue
              ++ (record { client = client; session = session; reply = reply; piece = None }) ∷ [];
        } }
    {
        self.queue.push_back_reserved(Queued {
            client,
            session,
            reply,
            piece: None,
        });
    }

    /// Follows the row of the table that a message meets, of which this would be the item.
    fn follow(&mut self, client: u16, session: u64, row: Row, head: Head, bytes: &[u8]) -> Taken
        requires short { length bytes.now ≤ ENTRY_MAX }
        requires whole { HasEntry (item_of head bytes.now) }
        ensures follows { (b : Node) → StandsFor b self.old
            → Follows b self.new client session row head bytes.now result }
        ensures journal { self.new.journal ≡ self.old.journal }
    {
        match row {
            Row::Answers(reply) => Taken::Answer(reply),
            Row::Queues(reply) => match self.lack(head, 0) {
                Some(what) => Taken::Answer(full_of(what, head)),
                None => {
                    self.wait(client, session, reply);
                    Taken::Queued
                }
            },
            Row::Stores(reply) => match self.lack(head, head.size(bytes)) {
                Some(what) => Taken::Answer(full_of(what, head)),
                None => {
                    self.store(client, session, reply, head, bytes);
                    Taken::Queued
                }
            },
        }
    }

    /// Takes a message of a client in a session. An Add, a Copy and an AskLac with a fence are answered by the table of storage nodes:
    /// at once, or by the next commit, which the reply then waits for; `Full` comes exactly where pages, places in the index, ledgers,
    /// places in the queue or room in the journal are wanting, tested in this order. Every other message is left to `look`. It takes no
    /// memory.
    #[tactic(auto, unfolding(dl_rules_nodes::specs::Bookies::table_row))]
    pub fn take(&mut self, client: u16, session: u64, msg: &Msg) -> Taken
        requires { IsWhole msg.now }
        ensures taken { (b : Node) → StandsFor b self.old
            → result ≡ outcome_of (table_row b msg.now) }
        ensures stands { (b : Node) → StandsFor b self.old
            → StandsFor (after b client session (table_row b msg.now)) self.new }
        ensures journal { self.new.journal ≡ self.old.journal }
    {
        match msg {
            Msg::Add {
                ledger,
                entry,
                count,
                bytes,
            } => {
                let (ledger, entry, count) = (*ledger, *entry, *count);
                let marks = self.entries.get(EntryKey { ledger, entry });
                let row = add_row(marks, self.ledgers.get(ledger), ledger, entry);
                self.follow(
                    client,
                    session,
                    row,
                    Head::Add {
                        ledger,
                        entry,
                        count,
                    },
                    bytes,
                )
            }
            Msg::Copy {
                tag,
                ledger,
                entry,
                count,
                bytes,
            } => {
                let (ledger, entry, count) = (*ledger, *entry, *count);
                let row = copy_row(
                    self.entries.get(EntryKey { ledger, entry }),
                    *tag,
                    ledger,
                    entry,
                );
                self.follow(
                    client,
                    session,
                    row,
                    Head::Copy {
                        ledger,
                        entry,
                        count,
                    },
                    bytes,
                )
            }
            Msg::AskLac { tag, ledger, fence } => {
                if !*fence {
                    return Taken::Look;
                }
                let ledger = *ledger;
                let row = fence_row(self.ledgers.get(ledger), *tag, ledger);
                self.follow(client, session, row, Head::Fence { ledger }, &[])
            }
            _ => Taken::Look,
        }
    }

    /// Empties the queue, and no reply leaves.
    fn drop_queue(&mut self, replies: &mut Replies)
        requires { replies.old ≡ [] }
        ensures rest { self.new ≡ record self.old { pool = self.new.pool; queue = []; bytes = 0 } }
        ensures none { replies.new ≡ [] }
    {
        release(&mut self.pool, &self.ledgers, &mut self.queue, replies);
        replies.clear();
        self.bytes = 0;
    }

    /// Makes the queued items durable as one batch of the journal, and gives the replies that waited, in order. A count that waited is
    /// that after the batch. The queue is to have a reply. It takes no memory.
    ///
    /// `Device` comes only where the file's count of faults rose, or stands at the greatest u64: the batch may be in force or not.
    /// `Failed` comes exactly where an earlier call on the device failed, and then no call is made. After either the queue and the
    /// replies are gone, and the value stands for no node.
    pub fn commit<D: Depot>(
        &mut self,
        depot: &mut D,
        replies: &mut Replies,
    ) -> Result<(), CommitFault>
        requires stands { Stands (D.view depot.old) self.old.journal }
        requires queue { 0 < length self.old.queue }
        ensures commits { (b : Node) → StandsFor b self.old
            → Commits (D.view depot.old) (D.view depot.new) b self.old self.new replies.new result }
        ensures keeps { Keeps self.old.journal.file (D.view depot.old) (D.view depot.new) }
        ensures stands { Stands (D.view depot.new) self.new.journal }
        ensures file { self.new.journal.file ≡ self.old.journal.file }
        ensures counts { CountsCommit ((D.view depot.old).faults self.old.journal.file)
            ((D.view depot.new).faults self.old.journal.file) result }
        ensures failed { IsErrOf result CommitFault.Failed ↔ (self.old.failed ≡ true) }
        ensures fault { OnErr result (IsSpoilt self.new replies.new) }
    {
        replies.clear();
        if self.failed {
            self.drop_queue(replies);
            return Err(CommitFault::Failed);
        }
        let at = self.journal.body_place();
        match write_batch(
            &mut self.journal,
            depot,
            &self.pool,
            &self.queue,
            self.bytes,
            &mut self.frame,
        ) {
            Ok(()) => {
                settle(&mut self.entries, &mut self.ledgers, &self.queue, at);
                release(&mut self.pool, &self.ledgers, &mut self.queue, replies);
                self.bytes = 0;
                Ok(())
            }
            Err(fault) => {
                self.failed = true;
                self.drop_queue(replies);
                Err(fault)
            }
        }
    }

    /// Answers an asked entry from the durable list.
    fn look_entry<D: Depot>(
        &mut self,
        alloc: Global,
        depot: &mut D,
        tag: u32,
        ledger: u64,
        entry: u64,
    ) -> Result<Msg, LookFault>
        requires { self.old.failed ≡ false }
        ensures looked { (b : Node) → StandsFor b self.old → LooksUp (D.view depot.old)
            (D.view depot.new) b self.old (Msg.AskEntry tag ledger entry) result }
        ensures looks { Looks (D.view depot.old) (D.view depot.new) self.old.journal.file }
        ensures counts { CountsLook ((D.view depot.old).faults self.old.journal.file)
            ((D.view depot.new).faults self.old.journal.file) result }
        ensures works { IsErrOf result LookFault.Failed → ⊥ }
        ensures state { self.new ≡ kept_after self.old result }
        ensures stands { Stands (D.view depot.old) self.old.journal
            → Stands (D.view depot.new) self.new.journal }
    {
        let place = match place_by(self.entries.get(EntryKey { ledger, entry })) {
            Some(place) => place,
            None => {
                let fenced = is_fenced(self.ledgers.get(ledger));
                return Ok(Msg::NoEntry {
                    tag,
                    ledger,
                    entry,
                    fenced,
                });
            }
        };
        match read_back(alloc, depot, self.file, place) {
            Ok(bytes) => Ok(Msg::EntryIs {
                tag,
                ledger,
                entry,
                bytes,
            }),
            Err(fault) => {
                self.failed = fault.is_device();
                Err(fault)
            }
        }
    }

    /// Answers an AskEntry, or an AskLac without a fence, from the durable list; the bytes of an entry are read back from the journal.
    ///
    /// `Failed` comes exactly where an earlier call on the device failed, and then no call is made. `Device` comes only where the
    /// file's count of faults rose, or stands at the greatest u64; the value then has failed. `Damaged` has the offset of an entry
    /// whose bytes, as they were read back, are too few or no entry; it never comes from a depot that tells its bytes. `NoMemory`
    /// comes where memory runs out. An EntryIs that it gives is whole.
    pub fn look<D: Depot>(
        &mut self,
        alloc: Global,
        depot: &mut D,
        msg: &Msg,
    ) -> Result<Msg, LookFault>
        requires { IsLook msg.now }
        ensures looked { (b : Node) → StandsFor b self.old → LooksUp (D.view depot.old)
            (D.view depot.new) b self.old msg.now result }
        ensures looks { Looks (D.view depot.old) (D.view depot.new) self.old.journal.file }
        ensures counts { CountsLook ((D.view depot.old).faults self.old.journal.file)
            ((D.view depot.new).faults self.old.journal.file) result }
        ensures failed { IsErrOf result LookFault.Failed ↔ (self.old.failed ≡ true) }
        ensures state { self.new ≡ kept_after self.old result }
        ensures stands { Stands (D.view depot.old) self.old.journal
            → Stands (D.view depot.new) self.new.journal }
    {
        if self.failed {
            return Err(LookFault::Failed);
        }
        match msg {
            Msg::AskLac { tag, ledger, .. } => {
                let (tag, ledger) = (*tag, *ledger);
                Ok(lac_of(self.ledgers.get(ledger), tag, ledger))
            }
            Msg::AskEntry { tag, ledger, entry } => {
                let (tag, ledger, entry) = (*tag, *ledger, *entry);
                self.look_entry(alloc, depot, tag, ledger, entry)
            }
            _ => unreachable!(),
        }
    }
}

/// The answer that there is no room.
fn full_of(what: Resource, head: Head) -> Msg
    ensures { result ≡ Msg.Full what (ledger_in head) (named_entry (entry_named head)) }
{
    Msg::Full {
        what,
        ledger: head.ledger(),
        entry: head.entry().unwrap_or(0),
    }
}
