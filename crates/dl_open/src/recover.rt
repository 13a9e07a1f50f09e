ghost use Rattle.std.specs.Prelude.{◌≡◌, IfOk, OnErr};
ghost use Rattle.dl_formats.specs.NodeBytes.{IsConf};
ghost use Rattle.dl_rules_stream.specs.Recovers as rule;
ghost use Rattle.dl_requests.specs.Turns.{turn_of, next_by, goes_by};
ghost use Rattle.dl_requests.specs.Tasks.{View, new_view, GoesBy, HearsBy};
ghost use Rattle.dl_open.specs.Recovering.{given_of, found_of, recover_order, stage_behind, turn_in};
ghost use Rattle.dl_open.specs.Recovering.{IsStep, RecoversAt, RecoversFor, StageStands};

use crate::found::Found;
use crate::given::Given;
use crate::recover_answers::after_heard;
use crate::recover_stage::RecoverStage;
use crate::recover_step::RecoverStep;
use dl_formats::conf::Conf;
use dl_msg::heard::Heard;
use dl_msg::turn::Turn;
use dl_types::memory::NoMemory;
use dl_types::name::Name;
use std::alloc::Global;
use std::marker::Model;

/// An order that recovers a stream: it looks at the stream, and completes its last segment where that is in progress.
#[derive(Drop)]
pub struct Recover {
    alloc: Global,
    given: Given,
    stage: RecoverStage,
}

impl Model for Recover {
    ghost use Rattle.dl_open.specs.Recovering.{args_of, RecoverFacts};

    ghost Value = { RecoverFacts };

    ghost view = { λ t. record { given = args_of t.given; stage = t.stage } };
}

impl Recover {
    /// An order that recovers this stream, and its first turn: it asks for a look at the stream. The line is the tag of its
    /// messages. The configuration is one that has bytes.
    #[tactic(auto, unfolding(dl_rules_stream::specs::Orders::stage_after))]
    pub fn start(
        alloc: Global,
        line: u32,
        stream: &Name,
        conf: Conf,
    ) -> Result<(Recover, Turn<Found>), NoMemory>
        requires { IsConf conf }
        ensures turn { IfOk result (λ x. x.1 ≡ turn_of
            (next_by found_of (rule.recover_first (given_of line stream.now conf)).1)) }
        ensures stands { IfOk result (λ x.
            RecoversFor (new_view (given_of line stream.now conf)) x.0) }
    {
        let stream = stream.share()?;
        let given = Given {
            tag: line,
            stream,
            conf,
        };
        let request = given.look(alloc)?;
        let task = Recover {
            alloc,
            given,
            stage: RecoverStage::Looking,
        };
        Ok((task, Turn::Ask(request)))
    }

    /// What it does at what it hears.
    fn after(&self, heard: &Heard) -> Result<RecoverStep, NoMemory>
        ensures { (s : rule.RecoverStage) → StageStands s self.now.stage
            → IfOk result (IsStep self.now.stage
            (rule.recover_hears self.now.given s heard.now)) }
    {
        after_heard(self.alloc, &self.given, &self.stage, heard)
    }

    /// Takes a step, and answers with its turn.
    fn take(&mut self, step: RecoverStep) -> Turn<Found>
        ensures given { self.new.given ≡ self.old.given }
        ensures stage { self.new.stage ≡ stage_behind self.old.stage step }
        ensures turn { result ≡ turn_in step }
    {
        self.stage.take(step)
    }

    /// Hears a reply to its request or a message of a bookie, and answers with its next turn. It is done with `Whole` where no
    /// segment is in progress, and else with the place below which all rows of the completed segment stand. Where another
    /// client has completed the segment meanwhile, it looks at the stream again. A stream that isn't there is `NoStream`; where
    /// bytes are not in the form of their node, where a request fails otherwise, or the segment's ledger can't be recovered,
    /// the order gives up at their path, or the node has moved on. What answers nothing that it asked changes nothing. Want of
    /// memory leaves the order as it is.
    pub fn hear(&mut self, heard: &Heard) -> Result<Turn<Found>, NoMemory>
        ensures goes { IfOk result (λ turn. (x : rule.RecoverArgs) (stage : rule.RecoverStage)
            → RecoversAt x stage self.old
            → GoesBy (RecoversAt x) (goes_by found_of (rule.recover_hears x stage heard.now)) turn
            self.new) }
        ensures view { IfOk result (λ turn. (v : View rule.RecoverArgs) → RecoversFor v self.old
            → HearsBy found_of recover_order RecoversFor v heard.now turn self.new) }
        ensures kept { OnErr result (self.new ≡ self.old) }
    {
        let step = self.after(heard)?;
        Ok(self.take(step))
    }
}
