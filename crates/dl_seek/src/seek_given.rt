ghost use Rattle.dl_formats.specs.NodeBytes.{IsConf};

use dl_formats::conf::Conf;
use dl_reader::reader::LogReader;
use dl_requests::cuts::list_cut;
use dl_types::dlsn::Dlsn;
use dl_types::memory::NoMemory;
use dl_types::meta_op::MetaOp;
use dl_types::name::Name;
use dl_types::start::Start;
use std::alloc::Global;

/// What the beginning of a reader is given: the stream, where the reader begins, and the configuration.
#[derive(Debug, Drop)]
pub(crate) struct SeekGiven {
    pub stream: Name,
    pub from: Start,
    pub conf: Conf,
    pub ghost valid: { IsConf conf },
}

impl SeekGiven {
    ghost use Rattle.std.specs.Prelude.{◌≡◌, IfOk};
    ghost use Rattle.dl_rules_stream.specs.Requests.{ListCut, op_of};
    ghost use Rattle.dl_reader.specs.Views.{StandsFor};
    ghost use Rattle.dl_seek.specs.Seeking.{args_of, reader_view};

    /// The request that reads the stream's point.
    pub(crate) fn list(&self, alloc: Global) -> Result<MetaOp, NoMemory>
        ensures { IfOk result (λ op. op ≡ op_of (ListCut self.now.stream)) }
    {
        list_cut(alloc, &self.stream)
    }

    /// The reader, where this is the stream's point.
    pub(crate) fn reader(&self, alloc: Global, point: Dlsn) -> Result<LogReader, NoMemory>
        ensures { IfOk result (StandsFor (reader_view (args_of self.now) point)) }
    {
        LogReader::start(alloc, &self.stream, self.from, point, self.conf)
    }
}
