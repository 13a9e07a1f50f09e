ghost use Rattle.std.specs.Prelude.{◌≡◌, ℕ, Some, not, IfOk, OnOk};
ghost use Rattle.dl_transcript.specs.declared.event.Event.TheVariants as event;
ghost use Rattle.dl_transcript.specs.Histories.{new_client};
ghost use Rattle.dl_transcript.specs.Legal.{ClientHistory, History, has, taken_at, is_taken};
ghost use Rattle.dl_transcript.specs.Histories.{with_ack};
ghost use Rattle.dl_shown.specs.Records.{record_of, StandsFor, Judges};

use dl_types::memory::NoMemory;
use dl_types::name::Name;
use dl_types::payload::Payload;
use dl_types::txid::TxId;
use indexmap::IndexSet;
use std::alloc::Global;

/// A record that was taken.
#[derive(Debug, Drop)]
pub struct TakenShown {
    /// The stream that it was taken for.
    pub stream: Name,
    /// Its id.
    pub txid: TxId,
    /// Its bytes.
    pub payload: Payload,
}

/// What was shown of a client's records. A record is found in the time of a look-up.
#[derive(Debug, Drop)]
pub struct RecordsShown {
    /// The records, oldest first.
    taken: Vec<TakenShown>,
    /// The numbers of those acknowledged.
    acked: IndexSet<u32>,
}

impl RecordsShown {
    /// A client of which nothing was shown.
    pub fn new(alloc: Global) -> RecordsShown
        ensures { StandsFor result new_client }
    {
        RecordsShown {
            taken: Vec::new(alloc),
            acked: IndexSet::new(alloc),
        }
    }

    /// Whether a record of this number may be taken, and that it is.
    pub fn take(&mut self, call: u32, taken: TakenShown) -> Result<bool, NoMemory>
        ensures { IfOk result (λ ok. Judges self.old self.new
            (λ c. event.Took c call taken.stream taken.txid taken.payload) ok) }
    {
        if u64::from(call) != self.taken.len() as u64 + 1 {
            return Ok(false);
        }
        self.taken.push(taken)?;
        Ok(true)
    }

    /// Whether the record of this number was not acknowledged.
    pub fn is_open(&self, call: u32) -> bool
        ensures { (x : ClientHistory) → StandsFor self.now x → result ≡ not (has call x.acked) }
    {
        !self.acked.contains(&call)
    }

    /// Keeps that the record of this number is acknowledged.
    pub fn acknowledge(&mut self, call: u32) -> Result<(), NoMemory>
        ensures { OnOk result ((x : ClientHistory) → StandsFor self.old x
            → StandsFor self.new (with_ack x call)) }
    {
        let _new = self.acked.insert(call)?;
        Ok(())
    }

    /// Whether this is the client's record of this number.
    pub fn is_record(&self, call: u32, stream: &Name, txid: TxId, payload: &Payload) -> bool
        ensures { (s : History) (c : ℕ) → StandsFor self.now (s.clients c)
            → result ≡ is_taken (taken_at s c call) stream.now txid payload.now }
    {
        if call == 0 {
            return false;
        }
        match self.taken.get(call as usize - 1) {
            Some(taken) => is_same(taken, stream, txid, payload),
            None => false,
        }
    }
}

/// Whether a record has these parts.
fn is_same(taken: &TakenShown, stream: &Name, txid: TxId, payload: &Payload) -> bool
    ensures { result ≡ is_taken (Some (record_of taken.now)) stream.now txid payload.now }
{
    taken.stream == *stream && taken.txid == txid && taken.payload == *payload
}
