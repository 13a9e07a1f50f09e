ghost use Rattle.std.specs.Prelude.{◌≡◌, ◌<◌, ◌≤◌, [], List, IfOk};
ghost use Rattle.dl_formats.specs.declared.segment_name.SegmentName.{SegmentName};
ghost use Rattle.dl_rules_ledger.specs.Readers.{ReaderStage, Counting, Fetching, Idle};
ghost use Rattle.dl_rules_ledger.specs.Readers.{asks_count, asks_entry, hears};
ghost use Rattle.dl_rules_stream.specs.Orders as order;
ghost use Rattle.dl_rules_stream.specs.LogReaders as rule;
ghost use Rattle.dl_requests.specs.LedgerNodes.{node_of_meta};
ghost use Rattle.dl_reader.specs.Walks.{IsWalk, AsksBy, HearsBy};

use crate::given::Given;
use dl_formats::ledger::LedgerMeta;
use dl_lread::got::Got;
use dl_lread::reader::LedgerReader;
use dl_msg::msg::Msg;
use dl_msg::turn::Turn;
use dl_requests::moves::tells;
use dl_types::ensemble::Ensemble;
use dl_types::memory::NoMemory;
use dl_types::read_row::ReadRows;
use std::alloc::Global;

/// A segment that is walked: its number, and the reader of its ledger.
#[derive(Drop)]
pub(crate) struct Walk {
    pub(crate) segment: u64,
    pub(crate) reader: LedgerReader,
}

/// The walk of a segment whose ledger has this metadata; the ledger's ensemble is at most that of all bookies. The messages about
/// it have this tag.
pub(crate) fn new_walk(
    alloc: Global,
    given: &Given,
    tag: u32,
    segment: u64,
    ledger: u64,
    meta: LedgerMeta,
) -> Result<Walk, NoMemory>
    requires { meta.q.e ≤ given.now.conf.b }
    ensures { IfOk result (λ walk. (r : rule.Read) (left : List SegmentName) → r.tag ≡ tag
        → IsWalk (rule.walk_of given.now r segment ledger (node_of_meta meta) left) Idle walk) }
{
    let ensemble = Ensemble::of(ledger, given.conf.b, meta.q.e);
    let reader = LedgerReader::start(alloc, tag, ledger, meta.q, ensemble)?;
    Ok(Walk { segment, reader })
}

impl Walk {
    /// Asks how many entries of the ledger can be read.
    pub(crate) fn ask_count(mut self) -> Result<(Walk, Turn<ReadRows>), NoMemory>
        ensures { IfOk result (λ x. (w : rule.Walk) (s : ReaderStage) → IsWalk w s self
            → AsksBy w (Counting []) (order.tells (asks_count w.subject)) x.0 x.1) }
    {
        let letters = self.reader.ask_lac()?;
        Ok((self, tells(letters)))
    }

    /// Asks for an entry.
    pub(crate) fn ask(mut self, entry: u64) -> Result<(Walk, Turn<ReadRows>), NoMemory>
        ensures { IfOk result (λ x. (w : rule.Walk) (s : ReaderStage) → IsWalk w s self
            → AsksBy w (Fetching entry) (order.tells (asks_entry w.subject entry)) x.0 x.1) }
    {
        let letters = self.reader.ask(entry)?;
        Ok((self, tells(letters)))
    }

    /// The walk once it has heard a message of a bookie, and what the ledger's reader has got then. This one stays as it is.
    pub(crate) fn heard(&self, bookie: u8, msg: &Msg) -> Result<(Walk, Got), NoMemory>
        ensures { IfOk result (λ x. (w : rule.Walk) (s : ReaderStage) → IsWalk w s self.now
            → HearsBy w (hears w.subject s bookie msg.now) x.0 x.1) }
    {
        let mut reader = self.reader.clone()?;
        let got = reader.hear(bookie, msg)?;
        let segment = self.segment;
        Ok((Walk { segment, reader }, got))
    }
}
