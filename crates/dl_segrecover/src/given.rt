ghost use Rattle.std.specs.Prelude.{◌≡◌, ◌≤◌, IfOk};
ghost use Rattle.dl_formats.specs.NodeBytes.{IsSegmentMeta, ten_nines};
ghost use Rattle.dl_formats.specs.declared.segment_name.SegmentName.TheVariants.{Progress};
ghost use Rattle.dl_requests.specs.Completions.{completion_by};
ghost use Rattle.dl_rules_stream.specs.Requests.{CompleteSegment, op_of};
ghost use Rattle.dl_rules_stream.specs.LedgerRecoveries.{recovery_first};
ghost use Rattle.dl_rules_stream.specs.Listings.{segment_of};
ghost use Rattle.dl_rules_stream.specs.SegmentRecoveries as rule;
ghost use Rattle.dl_requests.specs.Turns.{turn_of};
ghost use Rattle.dl_lrecover.specs.Views.{StandsAt};

use dl_formats::conf::Conf;
use dl_formats::maxseq::MaxSeq;
use dl_formats::segment::SegmentMeta;
use dl_formats::segment_name::SegmentName;
use dl_lrecover::recovery::Recovery;
use dl_msg::turn::Turn;
use dl_requests::nodes::segment_of;
use dl_requests::segment_end::{SegmentEnd, complete_segment};
use dl_requests::segments::get_segment;
use dl_types::memory::NoMemory;
use dl_types::meta_op::MetaOp;
use dl_types::name::Name;
use dl_types::path::Path;
use dl_types::refusal::Refusal;
use dl_types::txid::TxId;
use dl_types::why::Why;
use std::alloc::Global;
use std::marker::Model;

/// What the recovery of a segment is given: the tag of its messages, the stream, the path of its owner's member of the lock,
/// where there is one, the segment, what was read of the stream's node `maxseq` with its version, and the configuration.
/// Contracts see it as the arguments of its order.
#[derive(Debug, Drop)]
pub(crate) struct Given {
    pub(crate) tag: u32,
    pub(crate) stream: Name,
    pub(crate) member: Option<Path>,
    pub(crate) segment: u64,
    pub(crate) maxseq: MaxSeq,
    pub(crate) version: u64,
    pub(crate) conf: Conf,
}

impl Model for Given {
    ghost use Rattle.dl_formats.specs.NodeBytes.{IsConf};
    ghost use Rattle.dl_rules_stream.specs.SegmentRecoveries.{SegmentArgs};

    ghost Value = { SegmentArgs };

    ghost view = { λ g. record {
      tag = g.tag;
      stream = g.stream;
      member = g.member;
      segment = g.segment;
      maxseq = g.maxseq;
      version = g.version;
      conf = g.conf;
    } };

    ghost invariant = { λ g. IsConf g.conf };
}

impl Given {
    /// The name of the segment in progress.
    pub(crate) fn name(&self) -> SegmentName
        ensures { result ≡ Progress self.now.segment }
    {
        SegmentName::Progress {
            segment: self.segment,
        }
    }

    /// The segment that the bytes of its node hold, or the refusal by which an order gives up there.
    pub(crate) fn read(
        &self,
        alloc: Global,
        bytes: &[u8],
    ) -> Result<Result<SegmentMeta, Refusal>, NoMemory>
        ensures value { IfOk result (λ read.
            read ≡ segment_of self.now.stream (Progress self.now.segment) bytes.now) }
        ensures valid { IfOk result (λ read. IfOk read IsSegmentMeta) }
    {
        segment_of(alloc, &self.stream, self.name(), bytes)
    }

    /// The recovery of the segment's ledger, whose number has at most ten digits, and its first turn.
    #[tactic(auto, unfolding(dl_rules_stream::specs::Orders::stage_after))]
    pub(crate) fn recovery(
        &self,
        alloc: Global,
        ledger: u64,
    ) -> Result<(Recovery, Turn<u64>), NoMemory>
        requires { ledger ≤ ten_nines }
        ensures turn { let y = rule.ledger_args self.now ledger in
            IfOk result (λ r. r.1 ≡ turn_of (recovery_first y).1) }
        ensures stands { let y = rule.ledger_args self.now ledger in
            IfOk result (λ r. StandsAt y (recovery_first y).0 r.0) }
    {
        Recovery::start(alloc, self.tag, ledger, self.conf)
    }

    /// The greatest transaction id of the stream's complete segments.
    pub(crate) fn last(&self) -> TxId
        ensures { result ≡ self.now.maxseq.last }
    {
        self.maxseq.last
    }

    /// The request for the node of the segment in progress.
    pub(crate) fn get(&self, alloc: Global) -> Result<MetaOp, NoMemory>
        ensures { IfOk result (λ op. op ≡ op_of (rule.gets self.now)) }
    {
        get_segment(alloc, &self.stream, self.name())
    }

    /// The segment's end, where its ledger has so many entries, and those have so many rows and this last transaction id.
    pub(crate) fn end(&self, ledger: u64, entries: u64, rows: u64, last: TxId) -> SegmentEnd
        ensures { completion_by self.now.stream self.now.member result
            ≡ rule.completion_of self.now ledger entries rows last }
    {
        SegmentEnd {
            segment: self.segment,
            ledger,
            entries,
            rows,
            last,
            greatest: self.maxseq.segment,
            version: self.version,
        }
    }

    /// The request that completes the segment with this end.
    pub(crate) fn complete(&self, alloc: Global, end: &SegmentEnd) -> Result<MetaOp, NoMemory>
        ensures { IfOk result (λ op. op ≡ op_of (CompleteSegment
            (completion_by self.now.stream self.now.member end.now))) }
    {
        complete_segment(alloc, &self.stream, self.member.as_ref(), end)
    }

    /// The place of the deletion among the operations of a completion.
    fn deletion_place(&self) -> u16
        ensures { result ≡ rule.deletion_place self.now.member }
    {
        match self.member {
            None => 0,
            Some(_) => 1,
        }
    }

    /// Whether a failure of a completion says that the segment in progress is there no more: another client has completed it.
    #[tactic(auto, using(crate::proofs::Failures::not_missing))]
    pub(crate) fn is_completed(&self, place: u16, why: Why) -> bool
        ensures { result ≡ rule.is_completed self.now.member place why }
    {
        match why {
            Why::NoNode => place == self.deletion_place(),
            _ => false,
        }
    }
}
