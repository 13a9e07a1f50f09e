// What no clause says: that the calls succeed.
ghost use Rattle.std.specs.Prelude.{◌≡◌, IsTrue};
ghost use Rattle.dl_depot.specs.Memory.{view_by};
ghost use Rattle.dl_journal.specs.Settled.{Stands};
ghost use Rattle.dl_msg.specs.Whole.{IsWhole};

use bytes::Bytes;
use dl_bookie::bookie::Bookie;
use dl_bookie::replies::Replies;
use dl_bookie::taken::Taken;
use dl_depot::file_id::FileId;
use dl_depot::memory::MemDepot;
use dl_msg::msg::Msg;
use dl_record::check::check_entry;
use dl_types::memory::NoMemory;
use std::alloc::Global;
use std::test::Fail;

/// An entry of one record, whose payload is one byte.
const SMALL: [u8; 29] = [
    1, 0, 0, 1, 0, 0, 0, 21, 0, 0, 0, 0, 0, 0, 0, 0, 0, 0, 0, 0, 0, 0, 0, 0, 0, 0, 0, 1, 97,
];

/// An Add of the first entry of ledger 1.
fn add(alloc: Global) -> Result<Msg, NoMemory> {
    let bytes = Bytes::copy_from_slice(alloc, &SMALL)?;
    Ok(Msg::Add {
        ledger: 1,
        entry: 0,
        count: 1,
        bytes,
    })
}

/// Whether the entry that an Add carries is one.
fn is_whole_add(msg: &Msg) -> bool
    ensures { IsTrue result → IsWhole msg.now }
{
    match msg {
        Msg::Add { bytes, .. } => check_entry(bytes).is_ok(),
        _ => false,
    }
}

/// Takes an Add: whether it waits for a commit.
fn waits(node: &mut Bookie, msg: &Msg) -> bool
    ensures { node.new.journal ≡ node.old.journal }
{
    if !is_whole_add(msg) {
        return false;
    }
    match node.take(1, 1, msg) {
        Taken::Queued => true,
        _ => false,
    }
}

/// Commits what waits: whether one reply leaves, that the first entry of ledger 1 was added.
fn adds(depot: &mut MemDepot, node: &mut Bookie, replies: &mut Replies) -> bool
    requires { Stands (view_by depot.old) node.old.journal }
    ensures { Stands (view_by depot.new) node.new.journal }
{
    if node.queued() == 0 {
        return false;
    }
    if node.commit(depot, replies).is_err() {
        return false;
    }
    match replies.pop_front() {
        Some(reply) => match reply.msg {
            Msg::AddOk { ledger, entry } => ledger == 1 && entry == 0 && replies.is_empty(),
            _ => false,
        },
        None => false,
    }
}

/// Whether a look at the first entry of ledger 1 gives its bytes.
fn finds(alloc: Global, depot: &mut MemDepot, node: &mut Bookie) -> bool {
    let ask = Msg::AskEntry {
        tag: 7,
        ledger: 1,
        entry: 0,
    };
    match node.look(alloc, depot, &ask) {
        Ok(Msg::EntryIs { bytes, .. }) => bytes.as_slice() == SMALL.as_slice(),
        _ => false,
    }
}

/// Whether a node that is loaded from the file has the first entry of ledger 1.
fn holds_after_a_load(alloc: Global, depot: &mut MemDepot) -> bool {
    match Bookie::load(alloc, depot, FileId::new(1)) {
        Ok(node) => node.holds(1, 0),
        Err(_) => false,
    }
}

#[test]
fn an_entry_is_stored_and_found(rt: HostRuntime) -> Result<(), Fail> {
    let alloc = rt.alloc();
    let mut depot = MemDepot::new(alloc)?;
    let mut node = Bookie::make(alloc, &mut depot, FileId::new(1))?;
    let mut replies = Replies::new(alloc)?;
    let msg = add(alloc)?;
    assert!(rt; waits(&mut node, &msg));
    assert!(rt; adds(&mut depot, &mut node, &mut replies));
    assert!(rt; finds(alloc, &mut depot, &mut node));
    assert!(rt; holds_after_a_load(alloc, &mut depot));
    Ok(())
}
