//! Doing again what the journal's batches say, in one pass over them.

ghost use Rattle.std.specs.Prelude.{◌≡◌, ◌+◌, ◌≤◌, OnOk, Bool};
ghost use Rattle.dl_journal.specs.Limits.{journal_limit};
ghost use Rattle.dl_rules_nodes.specs.Metadata.{does};
ghost use Rattle.dl_rules_nodes.specs.Reading.{left_of};
ghost use Rattle.dl_rules_nodes.specs.MetaOrder.{IsDue};
ghost use Rattle.dl_meta.specs.Changes.{item_for};
ghost use Rattle.dl_meta.specs.Loading.{bodies_in, span, meta_with, DoesBody, DoesBodies};

use crate::change::Change;
use crate::first_tree::first_tree;
use crate::meta_fault::MetaFault;
use crate::read::read_body;
use dl_fields::fault::Fault;
use dl_fields::stop::Stop;
use dl_journal::batch::Batch;
use dl_journal::layout::{AROUND, MAGIC};
use dl_session::sessions::Sessions;
use dl_tree::tree::Tree;
use dl_types::memory::NoMemory;
use std::alloc::Global;

/// Does what an item says.
#[tactic(auto, unfolding(dl_rules_nodes::specs::Metadata::does))]
fn replay_change(
    alloc: Global,
    tree: &mut Tree,
    sessions: &mut Sessions,
    change: &Change,
    _is_first: bool,
) -> Result<(), NoMemory>
    requires { IsDue _is_first sessions.old (item_for change.now) }
    ensures { OnOk result (meta_with tree.new sessions.new
        ≡ does (meta_with tree.old sessions.old) (item_for change.now)) }
{
    match change {
        Change::Setup(conf) => {
            *tree = first_tree(alloc, conf)?;
        }
        Change::Connect(_) => {
            let _session = sessions.connect()?;
        }
        Change::Expire(session) => {
            let _was_live = sessions.expire(*session);
            tree.drop_session(*session);
        }
        Change::Ask {
            session,
            number,
            op,
        } => {
            let _answer = tree.apply(*session, op)?;
            sessions.ran(*session, *number);
        }
    }
    Ok(())
}

/// How many bytes are left at a fault.
fn left_of(fault: Fault) -> usize
    ensures { result ≡ left_of fault }
{
    match fault {
        Fault::Short(left) => left,
        Fault::Bad(left) => left,
        Fault::Long(left) => left,
    }
}

/// Reads the item of a body and does what it says. The body ends at a place of the file, by which a fault has its place.
fn replay_body(
    alloc: Global,
    tree: &mut Tree,
    sessions: &mut Sessions,
    is_first: bool,
    end: u64,
    body: &[u8],
) -> Result<(), MetaFault>
    ensures { DoesBody end is_first body.now (meta_with tree.old sessions.old)
        (meta_with tree.new sessions.new) result }
{
    let change = match read_body(alloc, is_first, sessions, body) {
        Ok(change) => change,
        Err(Stop::NoMemory) => return Err(MetaFault::NoMemory),
        Err(Stop::Fault(fault)) => {
            let left = left_of(fault) as u64;
            return Err(MetaFault::Damaged(end.saturating_sub(left)));
        }
    };
    replay_change(alloc, tree, sessions, &change, is_first)?;
    Ok(())
}

/// The tree and the sessions that the batches of a journal leave, from its first one on. `Damaged` has the place of the first
/// byte of the file at which an item breaks its grammar, or may not come.
pub(crate) fn replay(alloc: Global, batches: &[Batch]) -> Result<(Tree, Sessions), MetaFault>
    requires { 8 + span (bodies_in batches.now) ≤ journal_limit }
    ensures { DoesBodies (bodies_in batches.now) result }
{
    let mut tree = Tree::new(alloc)?;
    let mut sessions = Sessions::new(alloc)?;
    let mut end = MAGIC as u64;
    for (i, batch) in batches.iter().enumerate() {
        let body = batch.body.as_slice();
        end += (AROUND + body.len()) as u64;
        replay_body(alloc, &mut tree, &mut sessions, i == 0, end, body)?;
    }
    Ok((tree, sessions))
}
