ghost use Rattle.std.specs.Prelude.{◌≡◌, ◌≤◌, ◌<◌, ◌+◌, ◌-◌, ◌&&◌, nat_le, nat_lt, length, true, false, Some, IfOk};
ghost use Rattle.std.specs.List.Sorted.{IsStrictlyIncreasing};
ghost use Rattle.dl_tree_msg.specs.declared.rule.PathRule.TheVariants.{AllButConf};
ghost use Rattle.dl_tree_msg.specs.Rules.{allows};
ghost use Rattle.dl_tree_msg.specs.Requests.{IsRequest, IsAllowed};
ghost use Rattle.dl_msg.specs.declared.meta_reply.MetaReply.TheVariants as reply;
ghost use Rattle.dl_session.specs.declared.admit.Admit.TheVariants as admit;
ghost use Rattle.dl_session.specs.Sessions.{ids, number_in, is_live, admission};
ghost use Rattle.dl_journal.specs.Limits.{around_body};
ghost use Rattle.dl_journal.specs.Settled.{Stands};
ghost use Rattle.dl_journal.specs.Commits.{spare_of, body_of};
ghost use Rattle.dl_rules_nodes.specs.Limits.{greatest_session};
ghost use Rattle.dl_rules_nodes.specs.Items.{Connect, Expire, Ask, meta_item_length};
ghost use Rattle.dl_rules_nodes.specs.Metadata.{MetaNode, meta_of, answer_of};
ghost use Rattle.dl_meta.specs.State.{meta_in};
ghost use Rattle.dl_meta.specs.Standing.{StandsFor};
ghost use Rattle.dl_meta.specs.Turns.{Works, Takes, connect_turn, expire_turn, serve_turn};
ghost use Rattle.dl_meta.specs.Storing.{CommitsBody, Stores, Runs};

use crate::frame::{SESSION_ITEM, frame_of_ask, frame_of_connect, frame_of_expire, size_of_ask};
use crate::meta_fault::MetaFault;
use dl_depot::depot::Depot;
use dl_journal::commit_fault::CommitFault;
use dl_journal::journal::Journal;
use dl_msg::meta_reply::MetaReply;
use dl_session::admit::Admit;
use dl_session::sessions::Sessions;
use dl_tree::tree::Tree;
use dl_types::meta_answer::MetaAnswer;
use dl_types::meta_op::MetaOp;
use std::alloc::Global;
use std::marker::Model;

/// The metadata node (ZooKeeper documentation, "The ZooKeeper data model" and "sessions"): the tree and the sessions, with
/// each change of them on the device before it is answered. It keeps no list of what was done: it stands for that list.
///
/// The store is to be the only writer of the metadata file, which is file 0.
#[derive(Drop)]
pub struct MetaStore {
    alloc: Global,
    tree: Tree,
    sessions: Sessions,
    journal: Journal,
    failed: bool,
}

impl Model for MetaStore {
    ghost use Rattle.std.specs.Prelude.{◌≡◌};
    ghost use Rattle.dl_meta.specs.State.{MetaState, state_code};

    ghost Value = { MetaState };

    ghost coded = { state_code };

    ghost view = { λ s. record { tree = s.tree; sessions = s.sessions; journal = s.journal } };

    ghost invariant = { λ s. record {
      flag : s.failed ≡ s.journal.failed;
      file : s.journal.file ≡ 0;
    } };
}

impl MetaStore {
    /// A store of these parts.
    pub(crate) fn of(alloc: Global, tree: Tree, sessions: Sessions, journal: Journal) -> MetaStore
        requires works { journal.failed ≡ false }
        requires file { journal.file ≡ 0 }
        ensures { result ≡ record { tree = tree; sessions = sessions; journal = journal } }
    {
        MetaStore {
            alloc,
            tree,
            sessions,
            journal,
            failed: false,
        }
    }

    /// Commits the body of a frame. Where the device fails, so has the store.
    fn commit<D: Depot>(&mut self, depot: &mut D, frame: &mut [u8]) -> Result<(), MetaFault>
        requires stands { Stands (D.view depot.old) self.old.journal }
        requires works { self.old.journal.failed ≡ false }
        requires body { around_body < length frame.old }
        requires room { length frame.old - around_body ≤ spare_of self.old.journal }
        ensures commits { CommitsBody (D.view depot.old) (D.view depot.new) self.old.journal
            self.new.journal (body_of frame.old) result }
        ensures meta { meta_in self.new ≡ meta_in self.old }
    {
        match self.journal.commit(depot, frame) {
            Ok(()) => Ok(()),
            Err(CommitFault::Device) => {
                self.failed = true;
                Err(MetaFault::Device)
            }
            Err(CommitFault::Failed) => Err(MetaFault::Failed),
        }
    }

    /// Gives the next session.
    fn store_connect<D: Depot>(&mut self, depot: &mut D) -> Result<u64, MetaFault>
        requires stands { Stands (D.view depot.old) self.old.journal }
        requires works { self.old.journal.failed ≡ false }
        requires last { self.old.sessions.last < greatest_session }
        requires room { 9 ≤ spare_of self.old.journal }
        ensures { Stores (D.view depot.old) (D.view depot.new) (depot.new ≡ depot.old)
            self.old self.new
            (Connect (self.old.sessions.last + 1)) (self.old.sessions.last + 1) result }
    {
        let session = self.sessions.last() + 1;
        let mut frame = frame_of_connect(self.alloc, session)?;
        self.sessions.connect()?;
        match self.commit(depot, &mut frame) {
            Ok(()) => Ok(session),
            Err(fault) => Err(fault),
        }
    }

    /// Ends a session.
    fn store_expire<D: Depot>(&mut self, depot: &mut D, session: u64) -> Result<bool, MetaFault>
        requires stands { Stands (D.view depot.old) self.old.journal }
        requires works { self.old.journal.failed ≡ false }
        requires room { 9 ≤ spare_of self.old.journal }
        ensures { Stores (D.view depot.old) (D.view depot.new) (depot.new ≡ depot.old)
            self.old self.new
            (Expire session) true result }
    {
        let mut frame = frame_of_expire(self.alloc, session)?;
        let _ = self.sessions.expire(session);
        self.tree.drop_session(session);
        match self.commit(depot, &mut frame) {
            Ok(()) => Ok(true),
            Err(fault) => Err(fault),
        }
    }

    /// Runs a request of a session.
    fn store_ask<D: Depot>(
        &mut self,
        depot: &mut D,
        session: u64,
        number: u32,
        op: &MetaOp,
    ) -> Result<MetaAnswer, MetaFault>
        requires stands { Stands (D.view depot.old) self.old.journal }
        requires works { self.old.journal.failed ≡ false }
        requires runs { admission (number_in self.old.sessions.live session) number ≡ admit.Run }
        requires valid { IsRequest op.now }
        requires room { meta_item_length (Ask session number op.now) ≤ spare_of self.old.journal }
        ensures { Stores (D.view depot.old) (D.view depot.new) (depot.new ≡ depot.old)
            self.old self.new
            (Ask session number op.now) (answer_of (meta_in self.old) session op.now) result }
    {
        let mut frame = frame_of_ask(self.alloc, session, number, op)?;
        let answer = self.tree.apply(session, op)?;
        self.sessions.ran(session, number);
        match self.commit(depot, &mut frame) {
            Ok(()) => Ok(answer),
            Err(fault) => Err(fault),
        }
    }

    /// Whether the journal has room for an item of so many bytes.
    fn has_room(&self, size: u64) -> bool
        ensures { result ≡ nat_le size (spare_of self.now.journal) }
    {
        size <= self.journal.spare()
    }

    /// Whether one session more can be given.
    fn can_connect(&self) -> bool
        ensures { result ≡ (nat_lt self.now.sessions.last greatest_session
            && nat_le 9 (spare_of self.now.journal)) }
    {
        let is_below = self.sessions.last() < u64::MAX;
        is_below && self.has_room(SESSION_ITEM)
    }

    /// Whether a session is live.
    fn is_live(&self, session: u64) -> bool
        ensures { result ≡ is_live self.now.sessions session }
    {
        match self.sessions.admit(session, 0) {
            Admit::Expired => false,
            Admit::Old => true,
            Admit::Run => true,
        }
    }

    /// Gives a new session: one more than the last, from 1.
    ///
    /// `Failed` comes exactly where an earlier call of this store failed at the device; else `Full` exactly where the last
    /// session is the greatest u64, or the journal has no room for the item; `Device` only where the metadata file's count of
    /// faults rose, or stands at the greatest u64; `NoMemory` where memory runs out before the commit.
    pub fn connect<D: Depot>(&mut self, depot: &mut D) -> Result<u64, MetaFault>
        requires { Stands (D.view depot.old) self.old.journal }
        ensures works { Works (D.view depot.old) (D.view depot.new) (depot.new ≡ depot.old) self.old
            self.new result }
        ensures takes { (n : MetaNode) → StandsFor n self.old
            → Takes (D.view depot.old) (D.view depot.new)
            (depot.new ≡ depot.old) n self.old self.new (connect_turn n) result }
    {
        if self.failed {
            return Err(MetaFault::Failed);
        }
        if !self.can_connect() {
            return Err(MetaFault::Full);
        }
        self.store_connect(depot)
    }

    /// Ends a session: its ephemeral nodes go with it. It is false, without a call on the device, exactly where the session
    /// isn't live. The faults are those of `connect`, `Full` for want of room alone.
    pub fn expire<D: Depot>(&mut self, depot: &mut D, session: u64) -> Result<bool, MetaFault>
        requires { Stands (D.view depot.old) self.old.journal }
        ensures works { Works (D.view depot.old) (D.view depot.new) (depot.new ≡ depot.old) self.old
            self.new result }
        ensures takes { (n : MetaNode) → StandsFor n self.old
            → Takes (D.view depot.old) (D.view depot.new)
            (depot.new ≡ depot.old) n self.old self.new (expire_turn n session) result }
    {
        if self.failed {
            return Err(MetaFault::Failed);
        }
        if !self.is_live(session) {
            return Ok(false);
        }
        if !self.has_room(SESSION_ITEM) {
            return Err(MetaFault::Full);
        }
        self.store_expire(depot, session)
    }

    /// Runs a request of a session and gives its reply, once it is on the device: also where it only reads or fails, so that
    /// each number of a session runs at most once. It is `Expired`, without a call on the device, exactly where the session
    /// isn't live, and none exactly where the number isn't above the last one run in it. The request neither deletes nor sets
    /// `/conf`. The faults are those of `connect`, `Full` for want of room alone.
    pub fn serve<D: Depot>(
        &mut self,
        depot: &mut D,
        session: u64,
        number: u32,
        op: &MetaOp,
    ) -> Result<Option<MetaReply>, MetaFault>
        requires stands { Stands (D.view depot.old) self.old.journal }
        requires valid { IsRequest op.now }
        requires conf { IsAllowed (allows AllButConf) op.now }
        ensures works { Works (D.view depot.old) (D.view depot.new) (depot.new ≡ depot.old) self.old
            self.new result }
        ensures takes { (n : MetaNode) → StandsFor n self.old
            → Takes (D.view depot.old) (D.view depot.new)
            (depot.new ≡ depot.old) n self.old self.new (serve_turn n session number op.now) result }
    {
        if self.failed {
            return Err(MetaFault::Failed);
        }
        match self.sessions.admit(session, number) {
            Admit::Expired => Ok(Some(MetaReply::Expired)),
            Admit::Old => Ok(None),
            Admit::Run => self.run(depot, session, number, op),
        }
    }

    /// Runs a request that is admitted.
    fn run<D: Depot>(
        &mut self,
        depot: &mut D,
        session: u64,
        number: u32,
        op: &MetaOp,
    ) -> Result<Option<MetaReply>, MetaFault>
        requires stands { Stands (D.view depot.old) self.old.journal }
        requires works { self.old.journal.failed ≡ false }
        requires runs { admission (number_in self.old.sessions.live session) number ≡ admit.Run }
        requires valid { IsRequest op.now }
        ensures { Runs (D.view depot.old) (D.view depot.new) (depot.new ≡ depot.old)
            self.old self.new (Ask session number op.now)
            (Some (reply.Answer (answer_of (meta_in self.old) session op.now))) result }
    {
        if !self.has_room(size_of_ask(op)) {
            return Err(MetaFault::Full);
        }
        let answer = self.store_ask(depot, session, number, op)?;
        Ok(Some(MetaReply::Answer(answer)))
    }

    /// The tree.
    pub fn tree(&self) -> &Tree
        ensures value { result.now ≡ self.now.tree }
        ensures node { (n : MetaNode) → StandsFor n self.now → result.now ≡ (meta_of n.items).tree }
    {
        &self.tree
    }

    /// The live sessions, in rising order.
    pub fn live(&self) -> &[u64]
        ensures all { result.now ≡ ids self.now.sessions.live }
        ensures node { (n : MetaNode) → StandsFor n self.now
            → result.now ≡ ids (meta_of n.items).sessions.live }
        ensures rising { IsStrictlyIncreasing result.now }
    {
        self.sessions.live()
    }

    /// The last session given, 0 where none was.
    pub fn last(&self) -> u64
        ensures value { result ≡ self.now.sessions.last }
        ensures node { (n : MetaNode) → StandsFor n self.now
            → result ≡ (meta_of n.items).sessions.last }
    {
        self.sessions.last()
    }
}
