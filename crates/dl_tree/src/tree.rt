ghost use Rattle.std.specs.Prelude.{◌≡◌, ◌≤◌, IfOk, OnOk, OnErr, MatchOption};
ghost use Rattle.std.specs.Prelude.{MatchResult, Some, None, length, is_some, true};
ghost use Rattle.std.specs.FinMap.{get};
ghost use Rattle.dl_tree.specs.Trees.{root_alone, without_session, after_request, after_one};
ghost use Rattle.dl_tree.specs.Trees.{after_all, outcome_of, run_of, HasPlaces, child_names, node};

use crate::fault::{OneFault, RunFault};
use crate::node::NodeView;
use crate::nodes::Nodes;
use crate::one::one;
use crate::run::all;
use dl_types::memory::NoMemory;
use dl_types::meta_answer::MetaAnswer;
use dl_types::meta_op::MetaOp;
use dl_types::one_answers::OneAnswers;
use dl_types::one_op::OneOp;
use dl_types::path::Path;
use std::alloc::Global;
use std::marker::Model;

/// The metadata tree (ZooKeeper documentation, "The ZooKeeper data model"): nodes with bytes, a version, an owner and a
/// counter, at paths. Contracts see it as the finite map from paths to nodes.
#[derive(Drop)]
pub struct Tree {
    alloc: Global,
    nodes: Nodes,
}

impl Model for Tree {
    ghost use Rattle.std.specs.Prelude.{◌≡◌};
    ghost use Rattle.dl_tree.specs.Trees.{Nodes as Seen};
    ghost use Rattle.dl_tree.specs.Slots.{nodes_code};

    ghost Value = { Seen };

    ghost coded = { nodes_code };

    ghost view = { λ a. a.nodes.0 };

    ghost invariant = { λ a. a.nodes.1 ≡ a.nodes.0 };
}

impl Tree {
    /// The root alone.
    pub fn new(alloc: Global) -> Result<Tree, NoMemory>
        ensures { IfOk result (λ tree. tree ≡ root_alone) }
    {
        let nodes = Nodes::new(alloc)?;
        Ok(Tree { alloc, nodes })
    }

    /// Runs a request of a session. A single operation and several answer as the table of operations says; where one
    /// fails, the answer names its place and the reason, and the tree is as before, as it is where memory runs out.
    #[tactic(auto, unfolding(crate::specs::Trees::after_request))]
    pub fn apply(&mut self, session: u64, op: &MetaOp) -> Result<MetaAnswer, NoMemory>
        requires { HasPlaces op.now }
        ensures ok { IfOk result (λ answer. after_request self.old session op.now
            ≡ (answer, self.new)) }
        ensures err { OnErr result (self.new ≡ self.old) }
    {
        match op {
            MetaOp::One(op) => self.apply_one(session, op),
            MetaOp::Multi { ops } => self.apply_all(session, ops.as_slice()),
        }
    }

    /// Runs one operation.
    fn apply_one(&mut self, session: u64, op: &OneOp) -> Result<MetaAnswer, NoMemory>
        ensures ok { IfOk result (λ answer. after_one self.old (outcome_of self.old session op.now)
            ≡ (answer, self.new)) }
        ensures err { OnErr result (self.new ≡ self.old) }
    {
        match one(&mut self.nodes, self.alloc, session, op) {
            Ok(answer) => {
                self.nodes.keep();
                Ok(MetaAnswer::One(answer))
            }
            Err(OneFault::Failed(why)) => {
                self.nodes.back();
                Ok(MetaAnswer::Failed { place: 0, why })
            }
            Err(OneFault::NoMemory) => {
                self.nodes.back();
                Err(NoMemory)
            }
        }
    }

    /// Runs operations in order, all or none.
    fn apply_all(&mut self, session: u64, ops: &[OneOp]) -> Result<MetaAnswer, NoMemory>
        requires { length ops.now ≤ 65535 }
        ensures ok { IfOk result (λ answer. after_all self.old (run_of self.old session 0 ops.now)
            ≡ (answer, self.new)) }
        ensures err { OnErr result (self.new ≡ self.old) }
    {
        match all(&mut self.nodes, self.alloc, session, ops) {
            Ok(answers) => {
                self.nodes.keep();
                Ok(MetaAnswer::Many(OneAnswers::from_vec(answers)))
            }
            Err(RunFault::Failed { place, why }) => {
                self.nodes.back();
                Ok(MetaAnswer::Failed { place, why })
            }
            Err(RunFault::NoMemory) => {
                self.nodes.back();
                Err(NoMemory)
            }
        }
    }

    /// Takes out the ephemeral nodes of a session that ends, as one change. It takes no memory.
    pub fn drop_session(&mut self, session: u64)
        ensures { self.new ≡ without_session self.old session }
    {
        self.nodes.drop_owned(session);
    }

    /// The node at a path, where there is one. It takes no memory.
    pub fn look(&self, path: &Path) -> Option<NodeView<'_>>
        ensures { MatchOption result (get self.now path.now ≡ None) (λ v. get self.now path.now
            ≡ Some (node v.bytes.now v.version v.owner v.counter)) }
    {
        match self.nodes.get(path) {
            Some(node) => Some(NodeView {
                bytes: node.bytes.as_slice(),
                version: node.version,
                owner: node.owner,
                counter: node.counter,
            }),
            None => None,
        }
    }

    /// The names of a node's children in byte order, where the node is there.
    pub fn children(&self, alloc: Global, path: &Path) -> Result<Option<Vec<Path>>, NoMemory>
        ensures { IfOk result (λ o. MatchOption o (get self.now path.now ≡ None) (λ names.
            (is_some (get self.now path.now) ≡ true)
            × (names.items ≡ child_names self.now path.now))) }
    {
        match self.nodes.get(path) {
            Some(_node) => {
                let names = self.nodes.children(alloc, path)?;
                Ok(Some(names))
            }
            None => Ok(None),
        }
    }
}
