ghost use Rattle.std.specs.Prelude.{◌≡◌, ℕ, IfOk, OnOk, OnErr, Some, None, List, ◌||◌};
ghost use Rattle.std.specs.Prelude.{is_some, is_none};
ghost use Rattle.std.specs.Option.{option_copied};
ghost use Rattle.std.specs.FinMap.{get};
ghost use Rattle.dl_tree.specs.Slots.{with_node, tree_in, has_slot};
ghost use Rattle.dl_tree.specs.Trees.{root_alone, without_session, is_owned, child_names};

use crate::node::Node;
use crate::paths::{below, is_below, name, past_below};
use dl_types::body::Body;
use dl_types::memory::NoMemory;
use dl_types::path::Path;
use std::alloc::Global;
use std::collections::BTreeMap;
use std::marker::Model;

/// What a path had before a change.
#[derive(Drop)]
pub(crate) struct Change {
    path: Path,
    before: Option<Node>,
}

/// The nodes of a tree, with a way back to an earlier tree. A path has a slot, which holds its node or none. Contracts
/// see the tree now and the tree to go back to.
#[derive(Drop)]
pub(crate) struct Nodes {
    slots: BTreeMap<Path, Option<Node>>,
    changes: Vec<Change>,
    /// The paths at which none was put since the tree was kept or went back: no other slot is empty when it is kept.
    emptied: Vec<Path>,
}

impl Model for Nodes {
    ghost use Rattle.std.specs.Coded.{coded×};
    ghost use Rattle.dl_tree.specs.Trees.{Nodes as Seen};
    ghost use Rattle.dl_tree.specs.Slots.{nodes_code, tree_in, tree_before, Covers};

    ghost Value = { Seen × Seen };

    ghost coded = { coded× nodes_code nodes_code };

    ghost view = { λ a. let t = tree_in a.slots.entries in (t, tree_before t a.changes.items) };

    ghost invariant = { λ a. Covers a.slots.entries a.changes.items };
}

/// Takes a slot out where it holds no node.
fn sweep(slots: &mut BTreeMap<Path, Option<Node>>, path: &Path)
    ensures { tree_in slots.new.entries ≡ tree_in slots.old.entries }
{
    if let Some(None) = slots.get(path) {
        let _ = slots.remove(path);
    }
}

/// Takes out the slots at these paths that hold no node.
fn sweep_all(slots: &mut BTreeMap<Path, Option<Node>>, paths: &mut Vec<Path>)
    ensures { tree_in slots.new.entries ≡ tree_in slots.old.entries }
{
    while let Some(path) = paths.pop() {
        sweep(slots, &path);
    }
}

/// Puts back what a path had before a change. The path has a slot, so no memory is taken.
fn restore(slots: &mut BTreeMap<Path, Option<Node>>, path: &Path, before: Option<Node>)
    requires { has_slot slots.old.entries path.now }
    ensures tree { tree_in slots.new.entries
        ≡ with_node (tree_in slots.old.entries) path.now before }
    ensures kept { (q : List ℕ) → has_slot slots.old.entries q → has_slot slots.new.entries q }
{
    if let Some(slot) = slots.get_mut(path) {
        *slot = before;
    }
}

/// Undoes a change. Where it made its path's slot, that is empty again, and the path goes among those.
fn undo(slots: &mut BTreeMap<Path, Option<Node>>, emptied: &mut Vec<Path>, change: Change)
    requires { has_slot slots.old.entries change.path }
    ensures tree { tree_in slots.new.entries
        ≡ with_node (tree_in slots.old.entries) change.path change.before }
    ensures kept { (q : List ℕ) → has_slot slots.old.entries q → has_slot slots.new.entries q }
{
    let Change { path, before } = change;
    let is_new = before.is_none();
    restore(slots, &path, before);
    if is_new {
        // Room was made for it.
        let _ = emptied.push(path);
    }
}

impl Nodes {
    /// The root alone.
    pub(crate) fn new(alloc: Global) -> Result<Nodes, NoMemory>
        ensures { IfOk result (λ nodes. nodes ≡ (root_alone, root_alone)) }
    {
        let root = Node {
            bytes: Body::new(alloc, b"")?,
            version: 0,
            owner: None,
            counter: 0,
        };
        let path = Path::new(alloc, b"/")?;
        let mut slots = BTreeMap::new(alloc);
        slots.insert(path, Some(root))?;
        Ok(Nodes {
            slots,
            changes: Vec::new(alloc),
            emptied: Vec::new(alloc),
        })
    }

    /// The node at a path.
    pub(crate) fn get(&self, path: &Path) -> Option<&Node>
        ensures { option_copied result ≡ get self.now.0 path.now }
    {
        match self.slots.get(path) {
            Some(Some(node)) => Some(node),
            Some(None) => None,
            None => None,
        }
    }

    /// Puts a node at a path. Whether one was there.
    pub(crate) fn put(&mut self, path: &Path, node: Node) -> Result<bool, NoMemory>
        ensures was { IfOk result (λ was. was ≡ is_some (get self.old.0 path.now)) }
        ensures ok { OnOk result (self.new
            ≡ (with_node self.old.0 path.now (Some node), self.old.1)) }
        ensures err { OnErr result (self.new ≡ self.old) }
    {
        self.change(path, Some(node))
    }

    /// Takes out what is at a path. Its slot is empty until the tree is kept or goes back.
    pub(crate) fn take(&mut self, path: &Path) -> Result<(), NoMemory>
        ensures ok { OnOk result (self.new ≡ (with_node self.old.0 path.now None, self.old.1)) }
        ensures err { OnErr result (self.new ≡ self.old) }
    {
        self.emptied.push(path.share()?)?;
        let _was = self.change(path, None)?;
        Ok(())
    }

    /// Puts a node, or none, at a path, and notes what it had: whether that was a node. The way back finds room for each path
    /// that gets its slot.
    fn change(&mut self, path: &Path, node: Option<Node>) -> Result<bool, NoMemory>
        ensures was { IfOk result (λ was. was ≡ is_some (get self.old.0 path.now)) }
        ensures ok { OnOk result (self.new ≡ (with_node self.old.0 path.now node, self.old.1)) }
        ensures err { OnErr result (self.new ≡ self.old) }
    {
        let key = path.share()?;
        let path = path.share()?;
        self.emptied.try_reserve(self.changes.len() + 1)?;
        self.changes.try_reserve(1)?;
        let before = self.slots.insert(key, node)?.flatten();
        let was = before.is_some();
        // Room was made for it.
        let _ = self.changes.push(Change { path, before });
        Ok(was)
    }

    /// The names of a node's children, in byte order. It looks at the slots below the node alone, children and what stands
    /// below them: none where nothing does.
    pub(crate) fn children(&self, alloc: Global, path: &Path) -> Result<Vec<Path>, NoMemory>
        ensures { IfOk result (λ names. names.items ≡ child_names self.now.0 path.now) }
    {
        let first = below(alloc, path.as_slice())?;
        let end = past_below(alloc, path.as_slice())?;
        let mut names = Vec::new(alloc);
        for (child, slot) in self.slots.range(&first..&end) {
            if slot.is_some() && is_below(first.as_slice(), child.as_slice()) {
                names.push(name(alloc, child.as_slice())?)?;
            }
        }
        Ok(names)
    }

    /// Keeps the tree as it is: there is no way back. Only a slot whose node was taken out can be empty, and a tree without
    /// such a change is kept without a look at its slots.
    pub(crate) fn keep(&mut self)
        ensures { self.new ≡ (self.old.0, self.old.0) }
    {
        self.changes.clear();
        sweep_all(&mut self.slots, &mut self.emptied);
    }

    /// Goes back to the earlier tree. A slot stays until the last of its path's changes is undone, so that no memory is
    /// taken; then empty slots go, and nothing is left of a request that failed.
    pub(crate) fn back(&mut self)
        ensures { self.new ≡ (self.old.1, self.old.1) }
    {
        while let Some(change) = self.changes.pop() {
            undo(&mut self.slots, &mut self.emptied, change);
        }
        sweep_all(&mut self.slots, &mut self.emptied);
    }

    /// Takes out the nodes that a session owns, as one change.
    pub(crate) fn drop_owned(&mut self, session: u64)
        ensures { let t = without_session self.old.0 session in self.new ≡ (t, t) }
    {
        self.changes.clear();
        self.emptied.clear();
        self.slots.retain(|_path, slot| !is_owned(session, slot));
    }
}

/// Whether a slot holds a node that a session owns, or none.
fn is_owned(session: u64, slot: &Option<Node>) -> bool
    ensures { result ≡ (is_owned session slot.now || is_none slot.now) }
{
    match slot {
        Some(node) => node.owner == Some(session),
        None => true,
    }
}
