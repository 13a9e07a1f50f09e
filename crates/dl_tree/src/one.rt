ghost use Rattle.std.specs.Prelude.{◌≡◌, ℕ, Ok, Some, IfOk, IfErr, OnOk, OnErr, ◌&&◌, ◌^◌};
ghost use Rattle.std.specs.Prelude.{nat_le, false, not, bytes_eq};
ghost use Rattle.std.specs.FinMap.{get, insert};
ghost use Rattle.dl_tree.specs.Faults.{IsFault};
ghost use Rattle.dl_tree.specs.Paths.{parent_of, root};
ghost use Rattle.dl_tree.specs.Trees.{fits, is_counted, owner_of, parent_after};
ghost use Rattle.dl_tree.specs.Trees.{made_path, create_outcome, child_outcome};
ghost use Rattle.dl_tree.specs.Trees.{parent_in, delete_outcome, set_outcome};
ghost use Rattle.dl_tree.specs.Trees.{check_outcome, get_outcome, children_outcome, outcome_of};

use crate::fault::OneFault;
use crate::node::Node;
use crate::nodes::Nodes;
use crate::paths::{is_root, parent, with_digits};
use dl_types::body::Body;
use dl_types::memory::NoMemory;
use dl_types::mode::Mode;
use dl_types::names::Names;
use dl_types::one_answer::OneAnswer;
use dl_types::one_op::OneOp;
use dl_types::path::Path;
use dl_types::why::Why;
use std::alloc::Global;

/// Whether a version that may be named is the node's.
fn fits(version: Option<u64>, node: &Node) -> bool
    ensures { result ≡ fits version node.now }
{
    match version {
        Some(version) => version == node.version,
        None => true,
    }
}

/// Whether a mode adds the parent's counter to the name.
fn is_counted(mode: Mode) -> bool
    ensures { result ≡ is_counted mode }
{
    match mode {
        Mode::Lasting => false,
        Mode::Ephemeral => false,
        Mode::Counted => true,
        Mode::EphemeralCounted => true,
    }
}

/// Who owns a node that a session makes in a mode.
fn owner_of(mode: Mode, session: u64) -> Option<u64>
    ensures { result ≡ owner_of mode session }
{
    match mode {
        Mode::Lasting => None,
        Mode::Ephemeral => Some(session),
        Mode::Counted => None,
        Mode::EphemeralCounted => Some(session),
    }
}

/// A check of a node.
pub(crate) fn check(nodes: &Nodes, path: &Path, version: Option<u64>) -> Result<OneAnswer, OneFault>
    ensures ok { IfOk result (λ a. check_outcome nodes.now.0 version (get nodes.now.0 path.now)
        ≡ Ok (a, nodes.now.0)) }
    ensures err { IfErr result (IsFault (check_outcome nodes.now.0 version
        (get nodes.now.0 path.now))) }
{
    match nodes.get(path) {
        Some(node) => {
            if fits(version, node) {
                Ok(OneAnswer::Done)
            } else {
                Err(OneFault::Failed(Why::BadVersion(node.version)))
            }
        }
        None => Err(OneFault::Failed(Why::NoNode)),
    }
}

/// A node's bytes and version.
pub(crate) fn bytes_at(nodes: &Nodes, path: &Path) -> Result<OneAnswer, OneFault>
    ensures ok { IfOk result (λ a. get_outcome nodes.now.0 (get nodes.now.0 path.now)
        ≡ Ok (a, nodes.now.0)) }
    ensures err { IfErr result (IsFault (get_outcome nodes.now.0 (get nodes.now.0 path.now))) }
{
    match nodes.get(path) {
        Some(node) => {
            let bytes = node.bytes.share()?;
            let version = node.version;
            Ok(OneAnswer::Bytes { bytes, version })
        }
        None => Err(OneFault::Failed(Why::NoNode)),
    }
}

/// The names of a node's children.
pub(crate) fn names(nodes: &Nodes, alloc: Global, path: &Path) -> Result<OneAnswer, OneFault>
    ensures ok { IfOk result (λ a. children_outcome nodes.now.0 path.now (get nodes.now.0 path.now)
        ≡ Ok (a, nodes.now.0)) }
    ensures err { IfErr result (IsFault (children_outcome nodes.now.0 path.now
        (get nodes.now.0 path.now))) }
{
    match nodes.get(path) {
        Some(_node) => {
            let children = nodes.children(alloc, path)?;
            Ok(OneAnswer::Names(Names::from_vec(children)))
        }
        None => Err(OneFault::Failed(Why::NoNode)),
    }
}

/// Whether a mode wants a counter that is at its end.
fn is_spent(mode: Mode, counter: u64) -> bool
    ensures { result ≡ (is_counted mode && nat_le (10 ^ 10) counter) }
{
    is_counted(mode) && 10_000_000_000 <= counter
}

/// Raises the parent's counter where a mode adds it to the name. Else the parent stays as it is, and no node is put.
fn count_up(nodes: &mut Nodes, above: &Path, parent: Node, mode: Mode) -> Result<(), NoMemory>
    requires there { get nodes.old.0 above.now ≡ Some parent }
    requires left { (is_counted mode && nat_le (10 ^ 10) parent.counter) ≡ false }
    ensures ok { OnOk result (nodes.new
        ≡ (insert nodes.old.0 above.now (parent_after mode parent), nodes.old.1)) }
    ensures err { OnErr result (nodes.new ≡ nodes.old) }
{
    if is_counted(mode) {
        let raised = Node {
            counter: parent.counter + 1,
            bytes: parent.bytes,
            version: parent.version,
            owner: parent.owner,
        };
        let _was = nodes.put(above, raised)?;
        Ok(())
    } else {
        Ok(())
    }
}

/// The path that a creation makes.
fn made_path(alloc: Global, path: &Path, mode: Mode, parent: &Node) -> Result<Path, NoMemory>
    ensures { IfOk result (λ made. made ≡ made_path path.now mode parent.now) }
{
    if is_counted(mode) {
        with_digits(alloc, path.as_slice(), parent.counter)
    } else {
        path.share()
    }
}

/// A creation below a parent that is there.
#[tactic(auto, unfolding(crate::specs::Trees::child_outcome))]
fn create_below(
    nodes: &mut Nodes,
    alloc: Global,
    session: u64,
    path: &Path,
    above: &Path,
    parent: Node,
    bytes: &Body,
    mode: Mode,
) -> Result<OneAnswer, OneFault>
    requires above { above.now ≡ parent_of path.now }
    requires there { get nodes.old.0 above.now ≡ Some parent }
    ensures ok { IfOk result (λ a. child_outcome nodes.old.0 session path.now bytes.now mode parent
        ≡ Ok (a, nodes.new.0)) }
    ensures err { IfErr result (IsFault (child_outcome nodes.old.0 session path.now bytes.now
        mode parent)) }
    ensures back { nodes.new.1 ≡ nodes.old.1 }
{
    if parent.owner.is_some() {
        return Err(OneFault::Failed(Why::EphemeralParent));
    }
    if is_spent(mode, parent.counter) {
        return Err(OneFault::Failed(Why::Spent));
    }
    let made = made_path(alloc, path, mode, &parent)?;
    let node = Node {
        bytes: bytes.share()?,
        version: 0,
        owner: owner_of(mode, session),
        counter: 0,
    };
    count_up(nodes, above, parent, mode)?;
    let was = nodes.put(&made, node)?;
    if was {
        return Err(OneFault::Failed(Why::NodeExists));
    }
    Ok(OneAnswer::Made(made))
}

/// A creation.
pub(crate) fn create(
    nodes: &mut Nodes,
    alloc: Global,
    session: u64,
    path: &Path,
    bytes: &Body,
    mode: Mode,
) -> Result<OneAnswer, OneFault>
    ensures ok { IfOk result (λ a. create_outcome nodes.old.0 session path.now bytes.now mode
        (parent_in nodes.old.0 path.now mode) ≡ Ok (a, nodes.new.0)) }
    ensures err { IfErr result (IsFault (create_outcome nodes.old.0 session path.now bytes.now mode
        (parent_in nodes.old.0 path.now mode))) }
    ensures back { nodes.new.1 ≡ nodes.old.1 }
{
    if is_rootless(path, mode) {
        return Err(OneFault::Failed(Why::NoNode));
    }
    let above = parent(path)?;
    match nodes.get(&above) {
        Some(node) => {
            let node = node.share()?;
            create_below(nodes, alloc, session, path, &above, node, bytes, mode)
        }
        None => Err(OneFault::Failed(Why::NoNode)),
    }
}

/// Whether a creation would make the root, which has no parent.
fn is_rootless(path: &Path, mode: Mode) -> bool
    ensures { result ≡ (bytes_eq path.now root && not (is_counted mode)) }
{
    is_root(path.as_slice()) && !is_counted(mode)
}

/// A deletion. A node without children has no slots below it, so that its deletion is a few looks.
pub(crate) fn delete(
    nodes: &mut Nodes,
    alloc: Global,
    path: &Path,
    version: Option<u64>,
) -> Result<OneAnswer, OneFault>
    ensures ok { IfOk result (λ a. delete_outcome nodes.old.0 path.now version
        (get nodes.old.0 path.now) ≡ Ok (a, nodes.new.0)) }
    ensures err { IfErr result (IsFault (delete_outcome nodes.old.0 path.now version
        (get nodes.old.0 path.now))) }
    ensures back { nodes.new.1 ≡ nodes.old.1 }
{
    match nodes.get(path) {
        Some(node) => {
            let is_root = is_root(path.as_slice());
            if !is_root && !fits(version, node) {
                return Err(OneFault::Failed(Why::BadVersion(node.version)));
            }
            let children = nodes.children(alloc, path)?;
            let count = children.len() as u64;
            if is_root || count != 0 {
                return Err(OneFault::Failed(Why::NotEmpty(count)));
            }
            nodes.take(path)?;
            Ok(OneAnswer::Done)
        }
        None => Err(OneFault::Failed(Why::NoNode)),
    }
}

/// A set.
pub(crate) fn set(
    nodes: &mut Nodes,
    path: &Path,
    bytes: &Body,
    version: Option<u64>,
) -> Result<OneAnswer, OneFault>
    ensures ok { IfOk result (λ a. set_outcome nodes.old.0 path.now bytes.now version
        (get nodes.old.0 path.now) ≡ Ok (a, nodes.new.0)) }
    ensures err { IfErr result (IsFault (set_outcome nodes.old.0 path.now bytes.now version
        (get nodes.old.0 path.now))) }
    ensures back { nodes.new.1 ≡ nodes.old.1 }
{
    match nodes.get(path) {
        Some(node) => {
            if !fits(version, node) {
                return Err(OneFault::Failed(Why::BadVersion(node.version)));
            }
            if node.version == u64::MAX {
                return Err(OneFault::Failed(Why::Spent));
            }
            let next = node.version + 1;
            let changed = Node {
                bytes: bytes.share()?,
                version: next,
                owner: node.owner,
                counter: node.counter,
            };
            let _was = nodes.put(path, changed)?;
            Ok(OneAnswer::Version(next))
        }
        None => Err(OneFault::Failed(Why::NoNode)),
    }
}

/// One operation of a session. After a failure the nodes may have changed on the way, and wait to go back.
#[tactic(auto, unfolding(crate::specs::Trees::outcome_of))]
pub(crate) fn one(
    nodes: &mut Nodes,
    alloc: Global,
    session: u64,
    op: &OneOp,
) -> Result<OneAnswer, OneFault>
    ensures ok { IfOk result (λ a. outcome_of nodes.old.0 session op.now ≡ Ok (a, nodes.new.0)) }
    ensures err { IfErr result (IsFault (outcome_of nodes.old.0 session op.now)) }
    ensures back { nodes.new.1 ≡ nodes.old.1 }
{
    match op {
        OneOp::Create { path, bytes, mode } => create(nodes, alloc, session, path, bytes, *mode),
        OneOp::Delete { path, version } => delete(nodes, alloc, path, *version),
        OneOp::Set {
            path,
            bytes,
            version,
        } => set(nodes, path, bytes, *version),
        OneOp::Check { path, version } => check(nodes, path, *version),
        OneOp::Get { path } => bytes_at(nodes, path),
        OneOp::Children { path } => names(nodes, alloc, path),
    }
}
