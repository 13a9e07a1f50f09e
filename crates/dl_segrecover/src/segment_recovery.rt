ghost use Rattle.std.specs.Prelude.{◌≡◌, IfOk, OnErr};
ghost use Rattle.std.specs.Option.{option_copied};
ghost use Rattle.dl_formats.specs.NodeBytes.{IsConf};
ghost use Rattle.dl_rules_stream.specs.SegmentRecoveries.{SegmentArgs, SegmentStage, segment_first, segment_hears};
ghost use Rattle.dl_requests.specs.Turns.{turn_of, next_by, goes_by};
ghost use Rattle.dl_requests.specs.Tasks.{View, new_view, GoesBy, HearsBy};
ghost use Rattle.dl_segrecover.specs.Standing.{given_of, recovered_of, segment_order, with_stage};
ghost use Rattle.dl_segrecover.specs.Standing.{IsMove, StandsAt, StandsFor};

use crate::answers::after_heard;
use crate::given::Given;
use crate::recovered::Recovered;
use crate::stage::Stage;
use dl_formats::conf::Conf;
use dl_formats::maxseq::MaxSeq;
use dl_msg::heard::Heard;
use dl_msg::turn::Turn;
use dl_requests::moves::{Move, take};
use dl_types::memory::NoMemory;
use dl_types::name::Name;
use dl_types::path::Path;
use std::alloc::Global;
use std::marker::Model;

/// A task that recovers a segment in progress.
#[derive(Drop)]
pub struct SegmentRecovery {
    alloc: Global,
    given: Given,
    stage: Stage,
}

impl Model for SegmentRecovery {
    ghost use Rattle.dl_segrecover.specs.Facts.{SegmentFacts};

    ghost Value = { SegmentFacts };

    ghost view = { λ t. record { given = t.given; stage = t.stage } };
}

/// Another owner of the same path, where there is one.
fn shared(member: Option<&Path>) -> Result<Option<Path>, NoMemory>
    ensures { IfOk result (λ path. path ≡ option_copied member.entry) }
{
    match member {
        Some(member) => Ok(Some(member.share()?)),
        None => Ok(None),
    }
}

impl SegmentRecovery {
    /// A task that recovers this segment of a stream, and its first turn: it asks for the segment's node. The line is the tag
    /// of its messages; the member is that of the stream's owner, where the stream is opened; `maxseq` and the version are
    /// what was read of that node of the stream. The configuration is one that has bytes.
    #[tactic(auto, unfolding(dl_rules_stream::specs::Orders::stage_after))]
    pub fn start(
        alloc: Global,
        line: u32,
        stream: &Name,
        member: Option<&Path>,
        segment: u64,
        maxseq: MaxSeq,
        version: u64,
        conf: Conf,
    ) -> Result<(SegmentRecovery, Turn<Recovered>), NoMemory>
        requires { IsConf conf }
        ensures turn { let given = given_of line stream.now (option_copied member.entry) segment
            maxseq version conf in
            IfOk result (λ x. x.1 ≡ turn_of (next_by recovered_of (segment_first given).1)) }
        ensures stands { let given = given_of line stream.now (option_copied member.entry) segment
            maxseq version conf in
            IfOk result (λ x. StandsFor (new_view given) x.0) }
    {
        let given = Given {
            tag: line,
            stream: stream.share()?,
            member: shared(member)?,
            segment,
            maxseq,
            version,
            conf,
        };
        let request = given.get(alloc)?;
        let task = SegmentRecovery {
            alloc,
            given,
            stage: Stage::GettingSegment,
        };
        Ok((task, Turn::Ask(request)))
    }

    /// Where it goes at what it hears, as `hear` does; nothing changes.
    pub fn step(&self, heard: &Heard) -> Result<Move<Stage, Recovered>, NoMemory>
        ensures { IfOk result (λ step. (x : SegmentArgs) (stage : SegmentStage)
            → StandsAt x stage self.now
            → IsMove x self.now.stage (segment_hears x stage heard.now) step) }
    {
        after_heard(self.alloc, &self.given, &self.stage, heard)
    }

    /// Goes to this stage, which `step` told.
    pub fn go(&mut self, stage: Stage)
        ensures { self.new ≡ with_stage self.old stage }
    {
        self.stage = stage;
    }

    /// Hears a reply to its request or a message of a bookie, and answers with its next turn. It is done with the count of the
    /// segment's entries once the segment is complete, also where another client has completed it after this one had closed
    /// the ledger; or with `Again` where the segment in progress is gone before. It is refused as `GaveUp` where the ledger that
    /// the segment names is missing, where bytes are not in the form of their node, and where the recovery of the ledger gives
    /// up; where a request fails otherwise, the node has moved on or the task gives up at its path. What answers nothing that
    /// it asked changes nothing. Want of memory leaves the task as it is.
    #[tactic(auto, unfolding(dl_rules_stream::specs::Orders::stage_after))]
    pub fn hear(&mut self, heard: &Heard) -> Result<Turn<Recovered>, NoMemory>
        ensures goes { IfOk result (λ turn. (x : SegmentArgs) (stage : SegmentStage)
            → StandsAt x stage self.old
            → GoesBy (StandsAt x) (goes_by recovered_of (segment_hears x stage heard.now)) turn
            self.new) }
        ensures view { IfOk result (λ turn. (v : View SegmentArgs) → StandsFor v self.old
            → HearsBy recovered_of segment_order StandsFor v heard.now turn self.new) }
        ensures kept { OnErr result (self.new ≡ self.old) }
    {
        let step = self.step(heard)?;
        Ok(take(&mut self.stage, step))
    }
}
