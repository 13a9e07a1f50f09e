ghost use Rattle.std.specs.Prelude.{◌≡◌, IfOk};
ghost use Rattle.dl_formats.specs.declared.segment_name.SegmentName.{SegmentName};
ghost use Rattle.dl_rules_stream.specs.Requests as asks;

use dl_formats::conf::Conf;
use dl_formats::segment_name::SegmentName;
use dl_requests::cuts::list_cut;
use dl_requests::segments::get_segment;
use dl_types::memory::NoMemory;
use dl_types::meta_op::MetaOp;
use dl_types::name::Name;
use std::alloc::Global;
use std::marker::Model;

/// What a reader is started with: the stream, and the configuration, which is one that has bytes. Contracts see it as the
/// arguments of the rule.
#[derive(Debug, Drop)]
pub(crate) struct Given {
    pub(crate) stream: Name,
    pub(crate) conf: Conf,
}

impl Model for Given {
    ghost use Rattle.dl_formats.specs.NodeBytes.{IsConf};
    ghost use Rattle.dl_rules_stream.specs.LogReaders.{ReaderArgs};

    ghost Value = { ReaderArgs };

    ghost view = { λ g. record { stream = g.stream; conf = g.conf } };

    ghost invariant = { λ g. IsConf g.conf };
}

impl Given {
    /// The request that lists the stream's segments and reads its point.
    pub(crate) fn list(&self, alloc: Global) -> Result<MetaOp, NoMemory>
        ensures { IfOk result (λ op. op ≡ asks.op_of (asks.ListCut self.now.stream)) }
    {
        list_cut(alloc, &self.stream)
    }

    /// The request that reads the node of a segment.
    pub(crate) fn get(&self, alloc: Global, segment: SegmentName) -> Result<MetaOp, NoMemory>
        ensures { IfOk result (λ op. op ≡ asks.op_of (asks.GetSegment self.now.stream segment)) }
    {
        get_segment(alloc, &self.stream, segment)
    }
}
