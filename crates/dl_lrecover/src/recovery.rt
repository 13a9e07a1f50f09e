ghost use Rattle.std.specs.Prelude.{◌≡◌, ◌≤◌, ℕ, IfOk, IfSome, IfNone, OnErr, Some, None};
ghost use Rattle.dl_msg.specs.declared.heard.Heard.{Heard};
ghost use Rattle.dl_formats.specs.NodeBytes.{IsConf, ten_nines};
ghost use Rattle.dl_rules_stream.specs.LedgerRecoveries as rule;
ghost use Rattle.dl_rules_ledger.specs.Recoveries as search;
ghost use Rattle.dl_rules_stream.specs.Nodes.{LedgerNode};
ghost use Rattle.dl_lrecover.specs.Finding.{PhaseStands};
ghost use Rattle.dl_lrecover.specs.Views.{LacksBy};
ghost use Rattle.dl_requests.specs.LedgerNodes.{node_of_meta};
ghost use Rattle.dl_requests.specs.Turns.{turn_of};
ghost use Rattle.dl_lrecover.specs.Standing.{args_of};
ghost use Rattle.dl_lrecover.specs.Views.{RecoveryView, new_view, args, stage_in};
ghost use Rattle.dl_lrecover.specs.Views.{StandsAt, StandsFor, GoesBy, IsHearing, IsOutcome, EndsBy};

use crate::answers::after_heard;
use crate::ending::Ending;
use crate::outcome::{Missing, Outcome};
use crate::phase::Phase;
use crate::stage::Stage;
use crate::target::Target;
use dl_formats::conf::Conf;
use dl_formats::ledger::LedgerMeta;
use dl_msg::heard::Heard;
use dl_msg::turn::Turn;
use dl_requests::ledger_nodes::get_ledger;
use dl_types::memory::NoMemory;
use std::alloc::{AllocError, Global};
use std::marker::Model;

/// The recovery of a ledger. In each phase it keeps the set of places that were heard.
#[derive(Drop)]
pub struct Recovery {
    alloc: Global,
    target: Target,
    stage: Stage,
}

impl Model for Recovery {
    ghost use Rattle.dl_lrecover.specs.Facts.{RecoveryFacts};
    ghost use Rattle.dl_lrecover.specs.Standing.{args_of};

    ghost Value = { RecoveryFacts };

    ghost view = { λ r. record { args = args_of r.target; stage = r.stage } };
}

/// A clone goes on by itself: a task lets one hear, and keeps it once nothing else can fail.
impl Clone for Recovery {
    ghost is_clone = { λ r copy. copy ≡ r };

    fn clone(&self) -> Result<Self, AllocError> {
        Ok(Recovery {
            alloc: self.alloc,
            target: self.target,
            stage: self.stage,
        })
    }
}

impl Recovery {
    /// A recovery of this ledger, whose number has at most ten digits, and its first turn: it asks for the ledger's node. Its
    /// messages have this tag. The configuration is one that has bytes.
    #[tactic(auto, unfolding(dl_rules_stream::specs::Orders::stage_after))]
    pub fn start(
        alloc: Global,
        tag: u32,
        ledger: u64,
        conf: Conf,
    ) -> Result<(Recovery, Turn<u64>), NoMemory>
        requires ledger { ledger ≤ ten_nines }
        requires conf { IsConf conf }
        ensures turn { IfOk result (λ x. x.1
            ≡ turn_of (rule.recovery_first (args tag ledger conf)).1) }
        ensures stands { IfOk result (λ x. StandsFor (new_view (args tag ledger conf)) x.0) }
    {
        let request = get_ledger(alloc, ledger)?;
        let task = Recovery {
            alloc,
            target: Target { tag, ledger, conf },
            stage: Stage::GettingNode { node: None },
        };
        Ok((task, Turn::Ask(request)))
    }

    /// Hears a reply to its request or a message of a bookie, and answers with its next turn. It is done with the count at which
    /// the ledger is closed, also where another client closed it. It is refused as `GaveUp` at the ledger's path where the node
    /// is gone, where its bytes are not in their form or its ensemble is larger than that of all bookies, and where the search
    /// would pass the greatest number of an entry; where a request fails otherwise, the node has moved on or the task gives up
    /// there. What answers nothing that it asked changes nothing. Want of memory leaves the task as it is.
    #[tactic(auto, unfolding(dl_rules_stream::specs::Orders::stage_after))]
    pub fn hear(&mut self, heard: &Heard) -> Result<Turn<u64>, NoMemory>
        ensures goes { IfOk result (λ turn. (x : rule.RecoveryArgs) (stage : rule.RecoveryStage)
            → StandsAt x stage self.old
            → GoesBy x (rule.recovery_hears x stage heard.now) turn self.new) }
        ensures view { IfOk result (λ turn. (v : RecoveryView) → StandsFor v self.old
            → IsHearing v heard.now turn self.new) }
        ensures kept { OnErr result (self.new ≡ self.old) }
    {
        let (stage, turn) = after_heard(self.alloc, &self.target, self.stage, heard)?;
        self.stage = stage;
        Ok(turn)
    }

    /// How far it has come: what it lacks and from whom it has it, or the count at which the ledger is closed, or that the
    /// ledger's node is gone.
    pub fn outcome(&self) -> Outcome
        ensures { (v : RecoveryView) → StandsFor v self.now → IsOutcome v result }
    {
        match self.stage {
            Stage::Searching { phase, .. } => Outcome::NotYet(missing_in(phase)),
            Stage::IsClosed { node } => Outcome::Closed(node.meta.count),
            Stage::IsGone { .. } => Outcome::Gone,
            _ => Outcome::NotYet(Missing::Reply),
        }
    }

    /// How it has ended, where it has: at each stage at which it stands.
    pub fn ending(&self) -> Ending
        ensures { (x : rule.RecoveryArgs) (stage : rule.RecoveryStage)
            → StandsAt x stage self.now → EndsBy x stage result }
    {
        match self.stage {
            Stage::IsClosed { node } => Ending::Closed(node),
            Stage::IsGone { .. } => Ending::Gone,
            _ => Ending::Open,
        }
    }

    /// The value of the ledger's node that it last heard or had set, where there was one.
    pub fn ledger(&self) -> Option<&LedgerMeta>
        ensures some { IfSome result (λ meta. (v : RecoveryView) → StandsFor v self.now
            → rule.node_of (stage_in v) ≡ Some (node_of_meta meta.now)) }
        ensures none { IfNone result ((v : RecoveryView) → StandsFor v self.now
            → rule.node_of (stage_in v) ≡ None) }
    {
        match &self.stage {
            Stage::Marking { node, .. } => Some(&node.meta),
            Stage::Searching { node, .. } => Some(&node.meta),
            Stage::Closing { node, .. } => Some(&node.meta),
            Stage::IsClosed { node } => Some(&node.meta),
            Stage::GettingNode { node: Some(node) } => Some(&node.meta),
            Stage::IsGone { node: Some(node) } => Some(&node.meta),
            Stage::WasRefused { node: Some(node) } => Some(&node.meta),
            _ => None,
        }
    }
}

/// What a phase lacks.
fn missing_in(phase: Phase) -> Missing
    ensures { (x : rule.RecoveryArgs) (m : LedgerNode) (p : search.Phase)
        → PhaseStands (rule.subject_of x m) p phase
        → LacksBy x (Some m) (rule.missing_in p) result }
{
    match phase {
        Phase::Fencing { answered, .. } => Missing::Cover(answered),
        Phase::Reading { entry, denials, .. } => Missing::Entry(entry, denials),
        Phase::Copying { entry, copied, .. } => Missing::Entry(entry, copied),
    }
}
