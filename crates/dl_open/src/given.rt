ghost use Rattle.dl_formats.specs.NodeBytes.{IsConf};

use dl_formats::conf::Conf;
use dl_look::looked::Looked;
use dl_msg::turn::Turn;
use dl_requests::looks::look;
use dl_segrecover::recovered::Recovered;
use dl_segrecover::segment_recovery::SegmentRecovery;
use dl_types::memory::NoMemory;
use dl_types::meta_op::MetaOp;
use dl_types::name::Name;
use dl_types::path::Path;
use std::alloc::Global;

/// What an order with messages is given: their tag, the stream, and the configuration.
#[derive(Debug, Drop)]
pub(crate) struct Given {
    pub tag: u32,
    pub stream: Name,
    pub conf: Conf,
    pub ghost valid: { IsConf conf },
}

impl Given {
    ghost use Rattle.std.specs.Prelude.{◌≡◌, IfOk};
    ghost use Rattle.std.specs.Option.{option_copied};
    ghost use Rattle.dl_msg.specs.declared.turn.Turn.TheVariants.{Ask};
    ghost use Rattle.dl_rules_stream.specs.Requests as request;
    ghost use Rattle.dl_rules_stream.specs.Requests.{op_of};
    ghost use Rattle.dl_rules_stream.specs.SegmentRecoveries.{GettingSegment, gets};
    ghost use Rattle.dl_segrecover.specs.Standing.{StandsAt};
    ghost use Rattle.dl_open.specs.Segments.{segment_args};

    /// The request that looks at the stream.
    pub(crate) fn look(&self, alloc: Global) -> Result<MetaOp, NoMemory>
        ensures { IfOk result (λ op. op ≡ op_of (request.Look self.now.stream)) }
    {
        look(alloc, &self.stream)
    }

    /// The recovery of this segment by what a look told, and its first turn. The member is that of the stream's owner, where the
    /// stream is opened.
    #[tactic(auto, unfolding(dl_rules_stream::specs::Orders::stage_after))]
    pub(crate) fn recovery(
        &self,
        alloc: Global,
        member: Option<&Path>,
        looked: &Looked,
        segment: u64,
    ) -> Result<(SegmentRecovery, Turn<Recovered>), NoMemory>
        ensures turn { let args = segment_args self.now (option_copied member.entry) looked.now
            segment in IfOk result (λ x. x.1 ≡ Ask (op_of (gets args))) }
        ensures stands { let args = segment_args self.now (option_copied member.entry) looked.now
            segment in IfOk result (λ x. StandsAt args GettingSegment x.0) }
    {
        SegmentRecovery::start(
            alloc,
            self.tag,
            &self.stream,
            member,
            segment,
            looked.maxseq,
            looked.version,
            self.conf,
        )
    }
}
