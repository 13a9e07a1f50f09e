ghost use Rattle.std.specs.Prelude.{◌≡◌, ◌+◌, ◌^◌, ◌<◌, ◌==◌, nat_le, OnOk, OnErr, IfOk, IfErr};
ghost use Rattle.dl_quorum.specs.Sizes.{sizes_of};
ghost use Rattle.dl_quorum.specs.Pieces.{one_piece, ensemble_members};
ghost use Rattle.dl_rules_ledger.specs.Writers.{WriterView, Hears, new_view, with_call, sent_count};
ghost use Rattle.dl_rules_ledger.specs.Writers.{confirmed_count, fence_bookie, closing_count};
ghost use Rattle.dl_lwrite.specs.Standing.{StandsFor, IsSending, Refuses};
ghost use Rattle.dl_lwrite.specs.Steps.{HasSent, HasHeard, IsStop};

use crate::acknowledge::{acknowledge, advance, fenced_after};
use crate::send_fault::SendFault;
use crate::sending::adds;
use bytes::Bytes;
use dl_msg::letters::Letters;
use dl_msg::msg::Msg;
use dl_quorum::place_set::PlaceSet;
use dl_rules_ledger::window::WINDOW;
use dl_types::ensemble::Ensemble;
use dl_types::memory::NoMemory;
use dl_types::quorum::Quorum;
use std::alloc::{AllocError, Global};
use std::collections::VecDeque;
use std::marker::Model;

/// The writer of a ledger. It keeps a set of places for each entry that isn't confirmed yet, so that an answer costs the
/// same however long the ledger is.
#[derive(Drop)]
pub struct LedgerWriter {
    alloc: Global,
    ledger: u64,
    q: Quorum,
    ensemble: Ensemble,
    sent: u64,
    confirmed: u64,
    window: VecDeque<PlaceSet>,
    fenced: Option<u8>,
}

impl Model for LedgerWriter {
    ghost use Rattle.std.specs.Prelude.{◌≡◌, ◌+◌, ◌^◌, ◌<◌, ◌≤◌, length};
    ghost use Rattle.dl_rules_ledger.specs.declared.window.TheConstants.{WINDOW};
    ghost use Rattle.dl_lwrite.specs.Facts.{WriterFacts};

    ghost Value = { WriterFacts };

    ghost view = { λ w. record {
      ledger = w.ledger;
      q = w.q;
      ensemble = w.ensemble;
      sent = w.sent;
      confirmed = w.confirmed;
      answers = w.window.items;
      fenced = w.fenced;
    } };

    ghost invariant = { λ w. record {
      places : w.ensemble.e ≡ w.q.e;
      window : w.confirmed + length w.window.items ≡ w.sent;
      numbers : w.sent < 2 ^ 64;
      few : length w.window.items ≤ WINDOW;
    } };
}

/// A copy is a writer of its own: a caller sends or hears on it, and keeps it only once nothing can fail any more.
impl Clone for LedgerWriter {
    ghost is_clone = { λ w copy. copy ≡ w };

    fn clone(&self) -> Result<LedgerWriter, AllocError> {
        let window = self.window.clone()?;
        Ok(LedgerWriter {
            alloc: self.alloc,
            ledger: self.ledger,
            q: self.q,
            ensemble: self.ensemble,
            sent: self.sent,
            confirmed: self.confirmed,
            window,
            fenced: self.fenced,
        })
    }
}

impl LedgerWriter {
    /// A writer of this ledger that has sent and heard nothing. The ensemble has as many bookies as the quorum says.
    pub fn start(
        alloc: Global,
        ledger: u64,
        q: Quorum,
        ensemble: Ensemble,
    ) -> Result<LedgerWriter, NoMemory>
        requires { ensemble.e ≡ q.e }
        ensures { IfOk result
            (StandsFor (new_view ledger (one_piece (sizes_of q) (ensemble_members ensemble)))) }
    {
        let window = VecDeque::with_capacity(alloc, WINDOW)?;
        Ok(LedgerWriter {
            alloc,
            ledger,
            q,
            ensemble,
            sent: 0,
            confirmed: 0,
            window,
            fenced: None,
        })
    }

    /// How many of the first entries are confirmed.
    pub fn confirmed(&self) -> u64
        ensures value { result ≡ self.now.confirmed }
        ensures view { (v : WriterView) → StandsFor v self.now → result ≡ confirmed_count v }
    {
        self.confirmed
    }

    /// How many entries were sent.
    pub fn sent(&self) -> u64
        ensures value { result ≡ self.now.sent }
        ensures view { (v : WriterView) → StandsFor v self.now → result ≡ sent_count v.calls }
    {
        self.sent
    }

    /// The bookie that was the first to say that the ledger is fenced, where one said so.
    pub fn fenced(&self) -> Option<u8>
        ensures value { result ≡ self.now.fenced }
        ensures view { (v : WriterView) → StandsFor v self.now → result ≡ fence_bookie v }
    {
        self.fenced
    }

    /// Whether so many entries are unconfirmed as may be.
    pub fn is_full(&self) -> bool
        ensures { result ≡ nat_le (self.now.confirmed + WINDOW) self.now.sent }
    {
        self.window.len() >= WINDOW
    }

    /// Whether all that was sent is confirmed.
    pub fn is_confirmed(&self) -> bool
        ensures { result ≡ (self.now.confirmed == self.now.sent) }
    {
        self.confirmed == self.sent
    }

    /// Sends the next entry: its number, and the messages to its write set in the order of places, which share its bytes
    /// and carry the confirmed count. `Fenced` comes exactly where a bookie said that the ledger is fenced, and names the
    /// first one; else `WindowFull` exactly where `WINDOW` entries are unconfirmed. After a fault the writer is as before.
    pub fn send(&mut self, bytes: Bytes) -> Result<(u64, Letters), SendFault>
        requires { self.old.sent + 1 < 2 ^ 64 }
        ensures sent { IfOk result (λ x. (v : WriterView) → StandsFor v self.old
            → IsSending v bytes x.0 x.1 self.new) }
        ensures refused { IfErr result (λ fault. (v : WriterView) → StandsFor v self.old
            → Refuses v fault) }
        ensures counts { OnOk result (HasSent self.old self.new) }
        ensures stop { IfErr result (IsStop self.old) }
        ensures kept { OnErr result (self.new ≡ self.old) }
    {
        if let Some(bookie) = self.fenced {
            return Err(SendFault::Fenced(bookie));
        }
        if self.window.len() >= WINDOW {
            return Err(SendFault::WindowFull);
        }
        let entry = self.sent;
        let told = adds(
            self.alloc,
            self.q,
            &self.ensemble,
            self.ledger,
            entry,
            self.confirmed,
            bytes,
        )?;
        self.window.push_back(PlaceSet::empty())?;
        self.sent += 1;
        Ok((entry, told))
    }

    /// Hears a message of a bookie, and gives the confirmed count afterwards. It takes no memory. Messages that answer no
    /// entry of this ledger change nothing.
    pub fn hear(&mut self, bookie: u8, msg: &Msg) -> u64
        ensures stands { (v : WriterView) → StandsFor v self.old
            → StandsFor (with_call v (Hears bookie msg.now)) self.new }
        ensures count { (v : WriterView) → StandsFor v self.old
            → result ≡ confirmed_count (with_call v (Hears bookie msg.now)) }
        ensures value { result ≡ self.new.confirmed }
        ensures counts { HasHeard self.old bookie msg.now self.new }
        ensures sent { self.new.sent ≡ self.old.sent }
    {
        acknowledge(
            self.ledger,
            self.confirmed,
            &self.ensemble,
            &mut self.window,
            bookie,
            msg,
        );
        self.fenced = fenced_after(self.fenced, self.ledger, bookie, msg);
        let passed = advance(self.q, self.confirmed, &mut self.window);
        self.confirmed += passed as u64;
        self.confirmed
    }

    /// The count at which the ledger may be closed: that of the entries sent, where all of them are confirmed.
    pub fn close(&self) -> Option<u64>
        ensures { (v : WriterView) → StandsFor v self.now → result ≡ closing_count v }
    {
        if self.confirmed == self.sent {
            Some(self.sent)
        } else {
            None
        }
    }
}
