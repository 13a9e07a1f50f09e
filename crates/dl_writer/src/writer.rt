ghost use Rattle.std.specs.Prelude.{◌≡◌, ◌+◌, ◌≤◌, ◌<◌, ◌^◌, ◌∷◌, [], ℕ, Bool, false, None, Some, length, drop, nat_lt, sum_by};
ghost use Rattle.std.specs.Prelude.{IfOk, OnOk, OnErr, IfErr, IfSome, IfNone};
ghost use Rattle.dl_record.specs.declared.stored.Stored.TheVariants.{Plain, Set};
ghost use Rattle.dl_record.specs.Stored.{rows_in};
ghost use Rattle.dl_record.specs.Grammar.{payload_bytes};
ghost use Rattle.dl_quorum.specs.Pieces.{Pieces};
ghost use Rattle.dl_lwrite.specs.Standing as lwrite;
ghost use Rattle.dl_rules_ledger.specs.Writers as ledgers;
ghost use Rattle.dl_rules_stream.specs.LogWriters as rule;
ghost use Rattle.dl_rules_stream.specs.LogWriters.{LogNow, LogCall, Appends, AppendsSet, Flushes, Commits, Closes, HearsFrom};
ghost use Rattle.dl_rules_stream.specs.LogWriters.{last_sent_entry, log_state, set_size};
ghost use Rattle.dl_writer.specs.Facts.{IsBookie, IsFresh};
ghost use Rattle.dl_writer.specs.Modes.{log_mode, past_notice};
ghost use Rattle.dl_writer.specs.Refusals.{error_of, send_fault_in, take_fault_in, MayFlush, MayCome};
ghost use Rattle.dl_writer.specs.Going.{going};
ghost use Rattle.dl_writer.specs.Drafts.{MayTake};
ghost use Rattle.dl_writer.specs.Sending.{MaySend};
ghost use Rattle.dl_writer.specs.Moves.{SendsDraft, IsControl, GoesBy, IsAhead, TakesBy, IsEnding, with_ledger, part_fits};
ghost use Rattle.dl_writer.specs.Views.{LogView, NowStands, StandsFor, IsTaking, IsHearing, Takes, Refuses};
ghost use Rattle.dl_writer.specs.States.{state_of};
ghost use Rattle.dl_writer.specs.Views.{args_of, new_view, now_of, answer_to, ends_in, entry_of};

use crate::acked::{Acked, Spots};
use crate::draft::Draft;
use crate::going::{Going, next_going};
use crate::mode::Mode;
use crate::refusing::{check_record, check_writer};
use crate::sending::{
    drop_front, first_spots, placed_rows, send_on, share_all, spots_of, taken_from,
};
use crate::sent::Sent;
use crate::taken::Taken;
use crate::write_fault::WriteFault;
use crate::writer_state::{WriterState, state_by};
use dl_lwrite::writer::LedgerWriter;
use dl_msg::letters::Letters;
use dl_msg::msg::Msg;
use dl_record::encode::control;
use dl_record::limits::MEMBERS_MAX;
use dl_record::stored::Stored;
use dl_types::bookie::BookieId;
use dl_types::memory::NoMemory;
use dl_types::payload::Payload;
use dl_types::refusal::Refusal;
use dl_types::row::{Origin, Rows};
use dl_types::txid::TxId;
use std::alloc::Global;
use std::collections::VecDeque;
use std::marker::Model;
use std::slice;

/// The writer of a log segment. Of the entries sent it keeps the last one, and where the rows of the unconfirmed ones stand.
#[derive(Drop)]
pub struct LogWriter {
    alloc: Global,
    segment: u64,
    ledger: LedgerWriter,
    draft: Draft,
    waiting: VecDeque<Spots>,
    last: Option<Sent>,
    rows_sent: u32,
    last_sent: TxId,
    mode: Mode,
}

impl Model for LogWriter {
    ghost use Rattle.dl_writer.specs.Facts.{LogFacts, IsLog};

    ghost Value = { LogFacts };

    ghost view = { λ w. record {
      segment = w.segment;
      ledger = w.ledger;
      draft = w.draft;
      waiting = w.waiting.items;
      last = w.last;
      rows_sent = w.rows_sent;
      last_sent = w.last_sent;
      mode = w.mode;
    } };

    ghost invariant = { λ w. IsLog (record {
      segment = w.segment;
      ledger = w.ledger;
      draft = w.draft;
      waiting = w.waiting.items;
      last = w.last;
      rows_sent = w.rows_sent;
      last_sent = w.last_sent;
      mode = w.mode;
    }) };
}

/// The most bytes that the payloads of a set have together, as a caller hands them in; a set of more than `MAX_PAYLOAD` is refused.
pub const MAX_SET_BYTES: u64 = 16_777_216;

/// The length of the payload of a set of these members: a head of four bytes, and four bytes before each member.
#[tactic(auto, using(crate::proofs::DraftLemmas::members_more, crate::proofs::DraftLemmas::members_few))]
fn set_length(payloads: &[Payload]) -> u64
    requires members { length payloads.now ≤ MEMBERS_MAX }
    requires size { sum_by (λ payload. length payload) payloads.now ≤ MAX_SET_BYTES }
    ensures { result ≡ set_size payloads.now }
{
    let mut size = 4;
    for payload in payloads {
        size += payload.len() as u64 + 4;
    }
    size
}

impl LogWriter {
    /// A writer of this segment, behind this transaction id, on a ledger whose writer has sent and heard nothing.
    pub fn start(
        alloc: Global,
        segment: u64,
        last: TxId,
        ledger: LedgerWriter,
    ) -> Result<LogWriter, NoMemory>
        requires { IsFresh ledger }
        ensures { IfOk result (λ w. (number : ℕ) (pieces : Pieces)
            → lwrite.StandsFor (ledgers.new_view number pieces) ledger
            → StandsFor (new_view (args_of segment last number pieces)) w) }
    {
        let draft = Draft::new(alloc, 0, last)?;
        Ok(LogWriter {
            alloc,
            segment,
            ledger,
            draft,
            waiting: VecDeque::new(alloc),
            last: None,
            rows_sent: 0,
            last_sent: last,
            mode: Mode::Open,
        })
    }

    /// How many rows were taken.
    pub fn rows(&self) -> u32
        ensures value { result ≡ self.now.draft.next }
        ensures count { (v : LogView) → StandsFor v self.now
            → result ≡ rule.next_position (now_of v) }
    {
        self.draft.next()
    }

    /// How many entries were sent.
    pub fn entries(&self) -> u64
        ensures value { result ≡ self.now.ledger.sent }
        ensures count { (v : LogView) → StandsFor v self.now → result ≡ rule.sent_count (now_of v) }
    {
        self.ledger.sent()
    }

    /// The entry that was sent last, where one was.
    pub fn last(&self) -> Option<&Sent>
        ensures some { IfSome result (λ sent. (v : LogView) → StandsFor v self.now
            → last_sent_entry (now_of v) ≡ entry_of (Some sent.now)) }
        ensures none { IfNone result ((v : LogView) → StandsFor v self.now
            → last_sent_entry (now_of v) ≡ None) }
    {
        self.last.as_ref()
    }

    /// How far it has come. A fence takes the place of every other state but `Closable`.
    pub fn state(&self) -> WriterState
        ensures { (v : LogView) → StandsFor v self.now → state_of result ≡ log_state (now_of v) }
    {
        state_by(
            self.mode,
            self.ledger.fenced(),
            self.ledger.sent(),
            self.rows_sent,
            self.last_sent,
        )
    }

    /// Sends the entry under way, and goes on with the next one in another mode.
    fn send_draft(&mut self, next: Draft, mode: Mode) -> Result<Letters, NoMemory>
        requires may { MaySend self.old.ledger }
        requires some { 0 < length self.old.draft.pending }
        requires next { next.next ≡ self.old.draft.next + length next.pending }
        ensures sent { IfOk result (λ told. SendsDraft self.old next mode told self.new) }
        ensures kept { OnErr result (self.new ≡ self.old) }
    {
        let entry = self.ledger.sent();
        let bytes = self.draft.entry()?;
        let rows = placed_rows(self.alloc, self.segment, entry, self.draft.rows())?;
        let spots = spots_of(self.alloc, &rows)?;
        let (ledger, letters) = send_on(&self.ledger, bytes.into_bytes())?;
        self.waiting.push_back(spots)?;
        self.ledger = ledger;
        self.rows_sent = self.draft.next();
        self.last_sent = self.draft.last();
        self.draft = next;
        let rows = Rows::from_vec(rows);
        self.last = Some(Sent { entry, rows });
        self.mode = mode;
        Ok(letters)
    }

    /// Sends the control entry of a commit on a ledger's writer with which so many entries wait no more.
    fn send_control(&mut self, ledger: LedgerWriter, passed: usize) -> Result<Letters, NoMemory>
        requires may { MaySend ledger }
        requires fence { IsBookie ledger.fenced }
        requires ahead { IsAhead self.old ledger passed }
        ensures sent { IfOk result (λ told. (mode : Mode)
            → IsControl (with_ledger self.old ledger passed mode) told self.new) }
        ensures kept { OnErr result (self.new ≡ self.old) }
    {
        let entry = ledger.sent();
        let bytes = control(self.alloc, self.rows_sent, self.last_sent)?;
        let (ledger, letters) = send_on(&ledger, bytes.into_bytes())?;
        self.waiting.push_back(Spots::new(self.alloc))?;
        drop_front(&mut self.waiting, passed);
        self.ledger = ledger;
        let rows = Rows::new(self.alloc);
        self.last = Some(Sent { entry, rows });
        self.mode = Mode::Committing { control: entry };
        Ok(letters)
    }

    /// Goes on with a ledger's writer with which so many entries wait no more, in a mode.
    fn go_on(
        &mut self,
        ledger: LedgerWriter,
        passed: usize,
        mode: Mode,
    ) -> Result<Letters, NoMemory>
        requires few { ledger.sent + 1 < 2 ^ 64 }
        requires fence { IsBookie ledger.fenced }
        requires ahead { IsAhead self.old ledger passed }
        ensures goes { IfOk result (λ told. GoesBy (going ledger mode)
            (with_ledger self.old ledger passed mode) told self.new) }
        ensures kept { OnErr result (self.new ≡ self.old) }
    {
        match next_going(mode, &ledger) {
            Going::SendsControl => {
                let letters = self.send_control(ledger, passed)?;
                Ok(letters)
            }
            Going::Turns(mode) => {
                drop_front(&mut self.waiting, passed);
                self.ledger = ledger;
                self.mode = mode;
                Ok(Letters::new(self.alloc))
            }
        }
    }

    /// Whether a call that sends the entry under way may come, where there is one.
    fn check_send(&self) -> Result<(), Refusal>
        ensures may { OnOk result (MayFlush self.now) }
        ensures fault { error_of result ≡ send_fault_in self.now }
    {
        check_writer(self.mode.is_closing(), self.ledger.fenced())?;
        if self.draft.has_parts() && self.ledger.is_full() {
            return Err(Refusal::WindowFull);
        }
        Ok(())
    }

    /// Whether a record with a payload of this length and this transaction id may come.
    fn check_take(&self, length: u64, txid: TxId) -> Result<(), Refusal>
        ensures may { OnOk result (MayCome self.now length txid) }
        ensures fault { error_of result ≡ take_fault_in self.now length txid }
    {
        check_writer(self.mode.is_closing(), self.ledger.fenced())?;
        check_record(length, self.draft.last(), txid)?;
        if !self.draft.fits(length as u32) && self.ledger.is_full() {
            return Err(Refusal::WindowFull);
        }
        Ok(())
    }

    /// Takes a stored record with its rows. Where it doesn't fit the entry under way, that is sent first.
    fn take(&mut self, part: Stored, rows: Vec<Taken>, size: u32) -> Result<Letters, NoMemory>
        requires next { MayTake self.old.draft.next self.old.draft.last part rows.items }
        requires size { size ≡ length (payload_bytes part) }
        requires room { part_fits self.old part ≡ false → MaySend self.old.ledger }
        ensures takes { IfOk result (λ told. TakesBy (part_fits self.old part) self.old part
            rows.items (past_notice self.old.mode) told self.new) }
        ensures kept { OnErr result (self.new ≡ self.old) }
    {
        let mode = self.mode.past_notice();
        if self.draft.fits(size) {
            self.draft.take(&part, rows)?;
            self.mode = mode;
            return Ok(Letters::new(self.alloc));
        }
        let mut next = Draft::new(self.alloc, self.draft.next(), self.draft.last())?;
        next.take(&part, rows)?;
        self.send_draft(next, mode)
    }

    /// Sends what was taken, and goes on with a commit or a close in a mode.
    fn end_in(&mut self, mode: Mode) -> Result<Letters, WriteFault>
        requires ending { IsEnding mode }
        requires few { self.old.ledger.sent + 1 < 2 ^ 64 }
        ensures sent { IfOk result (λ told. (w : LogNow) → NowStands w self.old
            → Takes (ends_in (log_mode mode) w) told self.new) }
        ensures refused { IfErr result (λ fault. (w : LogNow) → NowStands w self.old
            → Refuses (ends_in (log_mode mode) w) fault) }
        ensures kept { OnErr result (self.new ≡ self.old) }
    {
        self.check_send()?;
        if self.draft.has_parts() {
            let next = Draft::new(self.alloc, self.draft.next(), self.draft.last())?;
            return Ok(self.send_draft(next, mode)?);
        }
        let ledger = self.ledger.clone()?;
        Ok(self.go_on(ledger, 0, mode)?)
    }

    /// Takes a record. One that doesn't fit the entry under way has that sent first: the messages are those of that entry.
    /// `NoWriter` comes exactly where the close has begun; else `Fenced` exactly where a bookie said that the ledger is fenced, and
    /// names the first one; else `TooLong` exactly above `MAX_PAYLOAD` bytes; else `TxidBack` exactly below the last id; else
    /// `WindowFull` exactly where an entry is due while a window of entries is unconfirmed.
    pub fn append(
        &mut self,
        origin: Origin,
        txid: TxId,
        payload: &[u8],
    ) -> Result<Letters, WriteFault>
        requires rows { self.old.draft.next + 1 < 2 ^ 32 }
        requires few { self.old.ledger.sent + 1 < 2 ^ 64 }
        ensures taken { IfOk result (λ told. (v : LogView) → StandsFor v self.old
            → IsTaking v (Appends origin txid payload.now) told self.new) }
        ensures refused { IfErr result (λ fault. (v : LogView) → StandsFor v self.old
            → Refuses (answer_to (now_of v) (Appends origin txid payload.now)) fault) }
        ensures kept { OnErr result (self.new ≡ self.old) }
    {
        self.check_take(payload.len() as u64, txid)?;
        let size = payload.len() as u32;
        let payload = Payload::new(self.alloc, payload)?;
        let rows = taken_from(self.alloc, origin, txid, slice::from_ref(&payload))?;
        let part = Stored::Plain {
            position: self.draft.next(),
            txid,
            payload,
        };
        Ok(self.take(part, rows, size)?)
    }

    /// Takes a set of records, which share a transaction id and become one stored record. The origin is that of the first member;
    /// the calls of the others follow. The refusals are those of `append`, with the length of the set as a payload.
    pub fn append_set(
        &mut self,
        origin: Origin,
        txid: TxId,
        payloads: &[Payload],
    ) -> Result<Letters, WriteFault>
        requires some { 1 ≤ length payloads.now }
        requires members { length payloads.now ≤ MEMBERS_MAX }
        requires bytes { sum_by (λ payload. length payload) payloads.now ≤ MAX_SET_BYTES }
        requires calls { origin.call + length payloads.now ≤ 2 ^ 32 }
        requires rows { self.old.draft.next + length payloads.now < 2 ^ 32 }
        requires few { self.old.ledger.sent + 1 < 2 ^ 64 }
        ensures taken { IfOk result (λ told. (v : LogView) → StandsFor v self.old
            → IsTaking v (AppendsSet origin txid payloads.now) told self.new) }
        ensures refused { IfErr result (λ fault. (v : LogView) → StandsFor v self.old
            → Refuses (answer_to (now_of v) (AppendsSet origin txid payloads.now)) fault) }
        ensures kept { OnErr result (self.new ≡ self.old) }
    {
        let length = set_length(payloads);
        self.check_take(length, txid)?;
        let rows = taken_from(self.alloc, origin, txid, payloads)?;
        let part = Stored::Set {
            position: self.draft.next(),
            txid,
            payloads: share_all(self.alloc, payloads)?,
        };
        Ok(self.take(part, rows, length as u32)?)
    }

    /// Sends the entry under way, where there is one. Refusals: `NoWriter`, `Fenced` and `WindowFull`, as for `append`.
    pub fn flush(&mut self) -> Result<Letters, WriteFault>
        requires few { self.old.ledger.sent + 1 < 2 ^ 64 }
        ensures taken { IfOk result (λ told. (v : LogView) → StandsFor v self.old
            → IsTaking v Flushes told self.new) }
        ensures refused { IfErr result (λ fault. (v : LogView) → StandsFor v self.old
            → Refuses (answer_to (now_of v) Flushes) fault) }
        ensures kept { OnErr result (self.new ≡ self.old) }
    {
        self.check_send()?;
        let mode = self.mode.past_notice();
        if self.draft.has_parts() {
            let next = Draft::new(self.alloc, self.draft.next(), self.draft.last())?;
            return Ok(self.send_draft(next, mode)?);
        }
        self.mode = mode;
        Ok(Letters::new(self.alloc))
    }

    /// Sends the entry under way, where there is one, and once all that was sent is confirmed, a control entry. Refusals as for
    /// `flush`.
    pub fn commit(&mut self) -> Result<Letters, WriteFault>
        requires few { self.old.ledger.sent + 1 < 2 ^ 64 }
        ensures taken { IfOk result (λ told. (v : LogView) → StandsFor v self.old
            → IsTaking v Commits told self.new) }
        ensures refused { IfErr result (λ fault. (v : LogView) → StandsFor v self.old
            → Refuses (answer_to (now_of v) Commits) fault) }
        ensures kept { OnErr result (self.new ≡ self.old) }
    {
        self.end_in(Mode::Awaiting)
    }

    /// Sends the entry under way, where there is one, and then nothing more: the ledger may be closed once all that was sent is
    /// confirmed. Refusals as for `flush`.
    pub fn close(&mut self) -> Result<Letters, WriteFault>
        requires few { self.old.ledger.sent + 1 < 2 ^ 64 }
        ensures taken { IfOk result (λ told. (v : LogView) → StandsFor v self.old
            → IsTaking v Closes told self.new) }
        ensures refused { IfErr result (λ fault. (v : LogView) → StandsFor v self.old
            → Refuses (answer_to (now_of v) Closes) fault) }
        ensures kept { OnErr result (self.new ≡ self.old) }
    {
        self.end_in(Mode::Closing)
    }

    /// Hears a message of a bookie: the confirmed count afterwards, the rows that it confirms, each told once, and the messages of
    /// the control entry that a commit sends now. Messages that answer no entry of the ledger change nothing. Want of memory leaves
    /// the writer as it is.
    pub fn hear(&mut self, bookie: BookieId, msg: &Msg) -> Result<Acked, NoMemory>
        requires few { self.old.ledger.sent + 1 < 2 ^ 64 }
        ensures heard { IfOk result (λ acked. (v : LogView) → StandsFor v self.old
            → IsHearing v bookie msg.now acked self.new) }
        ensures kept { OnErr result (self.new ≡ self.old) }
    {
        let mut ledger = self.ledger.clone()?;
        let before = ledger.confirmed();
        let confirmed = ledger.hear(bookie.number(), msg);
        let passed = (confirmed - before) as usize;
        let rows = first_spots(self.alloc, &self.waiting, passed)?;
        let letters = self.go_on(ledger, passed, self.mode)?;
        Ok(Acked {
            confirmed,
            rows,
            letters,
        })
    }
}
