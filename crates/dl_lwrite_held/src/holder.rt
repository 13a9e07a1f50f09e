ghost use Rattle.std.specs.Prelude.{◌≡◌, ◌+◌, ◌^◌, ◌<◌, IfOk, OnOk, OnErr};
ghost use Rattle.dl_quorum.specs.Sizes.{sizes_of};
ghost use Rattle.dl_quorum.specs.Pieces.{one_piece, ensemble_members};
ghost use Rattle.dl_rules_ledger.specs.Writers.{confirmed_count};
ghost use Rattle.dl_lwrite_held.specs.Holders.{HolderView, HolderStands, Line, Message, with_input, new_view, writer_view};

use bytes::Bytes;
use dl_lwrite::send_fault::SendFault;
use dl_lwrite::writer::LedgerWriter;
use dl_msg::letters::Letters;
use dl_msg::msg::Msg;
use dl_types::ensemble::Ensemble;
use dl_types::memory::NoMemory;
use dl_types::quorum::Quorum;
use std::alloc::Global;
use std::marker::Model;

/// A client in small: its number, and the writer of its ledger.
#[derive(Drop)]
pub struct Holder {
    number: u16,
    writer: LedgerWriter,
}

impl Model for Holder {
    ghost use Rattle.dl_lwrite_held.specs.Facts.{HolderFacts};

    ghost Value = { HolderFacts };

    ghost view = { λ h. record { number = h.number; writer = h.writer } };
}

impl Holder {
    /// A client of this number that writes a ledger.
    pub fn start(
        alloc: Global,
        number: u16,
        ledger: u64,
        q: Quorum,
        ensemble: Ensemble,
    ) -> Result<Holder, NoMemory>
        requires { ensemble.e ≡ q.e }
        ensures { let pieces = one_piece (sizes_of q) (ensemble_members ensemble) in
            IfOk result (HolderStands (new_view number ledger pieces)) }
    {
        let writer = LedgerWriter::start(alloc, ledger, q, ensemble)?;
        Ok(Holder { number, writer })
    }

    /// Sends an entry, by a line of this client.
    pub fn line(&mut self, bytes: Bytes) -> Result<(u64, Letters), SendFault>
        requires { self.old.writer.sent + 1 < 2 ^ 64 }
        ensures stands { OnOk result ((v : HolderView) → HolderStands v self.old
            → HolderStands (with_input v (Line bytes)) self.new) }
        ensures kept { OnErr result (self.new ≡ self.old) }
    {
        self.writer.send(bytes)
    }

    /// Takes a message of a bookie, and gives the writer's confirmed count.
    pub fn message(&mut self, bookie: u8, msg: &Msg) -> u64
        ensures stands { (v : HolderView) → HolderStands v self.old
            → HolderStands (with_input v (Message bookie msg.now)) self.new }
        ensures count { (v : HolderView) → HolderStands v self.old
            → result ≡ confirmed_count (writer_view (with_input v (Message bookie msg.now))) }
    {
        self.writer.hear(bookie, msg)
    }
}
