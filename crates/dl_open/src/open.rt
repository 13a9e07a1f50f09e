ghost use Rattle.std.specs.Prelude.{◌≡◌, IfOk, OnErr};
ghost use Rattle.dl_formats.specs.NodeBytes.{IsConf};
ghost use Rattle.dl_rules_stream.specs.Opens as rule;
ghost use Rattle.dl_requests.specs.Tasks.{View, new_view};
ghost use Rattle.dl_requests.specs.Turns.{IsTurn};
ghost use Rattle.dl_open.specs.Opening.{given_of, stage_behind, turn_in, IsNewWriter, IsStep};
ghost use Rattle.dl_open.specs.Opening.{OpensAt, OpensFor, OpensBy, Hears, StageStands};

use crate::given::Given;
use crate::new_writer::NewWriter;
use crate::open_answers::after_heard;
use crate::open_stage::OpenStage;
use crate::open_step::OpenStep;
use crate::open_turn::OpenTurn;
use crate::parts::first_turn;
use dl_formats::conf::Conf;
use dl_lock::lock::Lock;
use dl_msg::heard::Heard;
use dl_msg::turn::Turn;
use dl_types::dlsn::Dlsn;
use dl_types::memory::NoMemory;
use dl_types::name::Name;
use std::alloc::Global;
use std::marker::Model;

/// An order that opens a stream for a writer: it takes the stream's lock, looks at the stream, completes a segment that is in
/// progress, allocates a ledger, and starts the next segment.
#[derive(Drop)]
pub struct Open {
    alloc: Global,
    given: Given,
    stage: OpenStage,
}

impl Model for Open {
    ghost use Rattle.dl_open.specs.Opening.{args_of, OpenFacts};

    ghost Value = { OpenFacts };

    ghost view = { λ t. record { given = args_of t.given; stage = t.stage } };
}

impl Open {
    /// An order that opens this stream, and its first turn: it asks for a member of the stream's lock. The line is the tag of
    /// its messages. The configuration is one that has bytes.
    #[tactic(auto, unfolding(dl_rules_stream::specs::Orders::stage_after))]
    pub fn start(
        alloc: Global,
        line: u32,
        stream: &Name,
        conf: Conf,
    ) -> Result<(Open, Turn<NewWriter>), NoMemory>
        requires { IsConf conf }
        ensures turn { let given = given_of line stream.now conf in
            IfOk result (λ x. IsTurn (IsNewWriter given) (rule.open_first given).1 x.1) }
        ensures stands { let given = given_of line stream.now conf in
            IfOk result (λ x. OpensFor (new_view given) x.0) }
    {
        let (lock, turn) = Lock::start(alloc, line, stream)?;
        let stream = stream.share()?;
        let task = Open {
            alloc,
            given: Given {
                tag: line,
                stream,
                conf,
            },
            stage: OpenStage::Locking { lock },
        };
        Ok((task, first_turn(turn)))
    }

    /// What it does at what it hears, and where that completes a segment, the place below which all rows of it stand.
    fn after(&self, heard: &Heard) -> Result<(OpenStep, Option<Dlsn>), NoMemory>
        ensures step { IfOk result (λ m. (s : rule.OpenStage)
            → StageStands self.now.given s self.now.stage
            → IsStep self.now.given self.now.stage
            (rule.open_hears self.now.given s heard.now) m.0) }
        ensures recovered { IfOk result (λ m. (s : rule.OpenStage)
            → StageStands self.now.given s self.now.stage
            → m.1 ≡ rule.open_recovers s heard.now) }
    {
        after_heard(self.alloc, &self.given, &self.stage, heard)
    }

    /// Takes a step, and answers with its turn.
    fn take(&mut self, step: OpenStep) -> Turn<NewWriter>
        ensures given { self.new.given ≡ self.old.given }
        ensures stage { self.new.stage ≡ stage_behind self.old.stage step }
        ensures turn { result ≡ turn_in step }
    {
        self.stage.take(step)
    }

    /// Hears a reply to its request or a message of a bookie, and answers with its next turn. It is done with a writer that
    /// begins, once its segment has started. A stream that isn't there is `NoStream`; where another client has the lock, `Held`
    /// names its member. Where bytes are not in the form of their node, where a request fails otherwise, where a segment in
    /// progress can't be recovered, or the next segment had more than ten digits, the order gives up at their path, or the node
    /// has moved on. What answers nothing that it asked changes nothing. Want of memory leaves the order as it is.
    pub fn hear(&mut self, heard: &Heard) -> Result<OpenTurn, NoMemory>
        ensures goes { IfOk result (λ turn. (x : rule.OpenArgs) (stage : rule.OpenStage)
            → OpensAt x stage self.old → OpensBy x stage heard.now turn self.new) }
        ensures view { IfOk result (λ turn. (v : View rule.OpenArgs) → OpensFor v self.old
            → Hears v heard.now turn self.new) }
        ensures kept { OnErr result (self.new ≡ self.old) }
    {
        let (step, recovered) = self.after(heard)?;
        let turn = self.take(step);
        Ok(OpenTurn { turn, recovered })
    }
}
