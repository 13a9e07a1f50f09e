ghost use Rattle.std.specs.Prelude.{◌≡◌, ◌+◌, ◌<◌, ◌≤◌, ◌++◌, ◌∷◌, [], length};
ghost use Rattle.std.specs.Prelude.{OnOk, nat_le, map, ◌^◌, List};
ghost use Rattle.std.specs.List.{flat_map};
ghost use Rattle.dlog.specs.Machine.{new_log, take, send, append, flush, confirm, entry_events};
ghost use Rattle.dlog.specs.Machine.{grow, ack, entry_size, record_size, is_window_full};
ghost use Rattle.dlog.specs.Entries.{rows_of, payload_bytes, head_ack};
ghost use Rattle.dl_types.specs.declared.entry_bytes.TheConstants.{MAX_ENTRY};
ghost use Rattle.dl_transcript.specs.Lines.{print_event, print_all};
ghost use Rattle.dlog.specs.Counts.{HasRoom};

use crate::entry::{Entry, Head};
use dl_transcript::event::Event;
use dl_transcript::print::{put_ack, put_event, put_grow, put_sent, put_took};
use dl_types::client::ClientId;
use dl_types::dlsn::Dlsn;
use dl_types::memory::NoMemory;
use dl_types::name::Name;
use dl_types::payload::{MAX_PAYLOAD, Payload};
use dl_types::refusal::Refusal;
use dl_types::row::Origin;
use dl_types::txid::TxId;
use std::alloc::Global;
use std::marker::Model;
use std::mem;

/// The segment that the one writer writes.
pub const SEGMENT: u64 = 1;

/// The most bytes of a payload.
const PAYLOAD_LIMIT: usize = MAX_PAYLOAD as usize;

/// The most entries that may be sent and unconfirmed.
const WINDOW: usize = 64;

/// A log that a client writes. Records are packed into the entry under way, which is sent when it is full or flushed;
/// what was sent waits until it is confirmed. Contracts see it as the log of specs/Machine.antt. After want of memory
/// a log has ended, and is not used again.
#[derive(Drop)]
pub struct Log {
    alloc: Global,
    client: ClientId,
    stream: Name,
    taken: u32,
    last: TxId,
    sent: u64,
    waiting: Vec<Entry>,
    filling: Entry,
}

impl Model for Log {
    ghost use Rattle.dlog.specs.Machine.{Log as LogState};

    ghost Value = { LogState };

    ghost view = { λ g. record {
      client = g.client;
      stream = g.stream;
      taken = g.taken;
      last = g.last;
      sent = g.sent;
      waiting = g.waiting.items;
      filling = g.filling;
    } };
}

impl Log {
    /// A log into which nothing was taken yet.
    pub fn new(alloc: Global, client: ClientId, stream: Name) -> Log
        ensures { result ≡ new_log client stream }
    {
        Log {
            alloc,
            client,
            stream,
            taken: 0,
            last: TxId::new(0),
            sent: 0,
            waiting: Vec::new(alloc),
            filling: Entry::new(alloc),
        }
    }

    /// Takes a record, after sending the entry under way where the record doesn't fit it; or shows why it is refused:
    /// it is too long, its id goes back, or an entry would have to be sent while the window is full.
    #[tactic(auto, unfolding(crate::specs::Machine::append, crate::specs::Machine::send_and_take, crate::specs::Machine::send))]
    pub fn append(
        &mut self,
        txid: TxId,
        payload: Payload,
        line: u32,
        out: &mut Vec<u8>,
    ) -> Result<(), NoMemory>
        requires { HasRoom self.old }
        ensures state { OnOk result (self.new ≡ (append self.old txid payload).0) }
        ensures shown { OnOk result
            (out.new.items ≡ out.old.items ++ print_all line (append self.old txid payload).1) }
    {
        let bytes = payload.len();
        if bytes > PAYLOAD_LIMIT {
            return self.refuse(
                Refusal::TooLong {
                    length: bytes as u64,
                },
                line,
                out,
            );
        }
        if txid < self.last {
            return self.refuse(
                Refusal::TxidBack {
                    last: self.last,
                    given: txid,
                },
                line,
                out,
            );
        }
        if self.filling.fits(bytes) {
            return self.take(txid, payload.as_slice(), line, out);
        }
        if self.is_window_full() {
            return self.refuse(Refusal::WindowFull, line, out);
        }
        self.send(line, out)?;
        self.take(txid, payload.as_slice(), line, out)
    }

    /// Sends the entry under way where it has a record and the window isn't full.
    #[tactic(auto, unfolding(crate::specs::Machine::flush))]
    pub fn flush(&mut self, line: u32, out: &mut Vec<u8>) -> Result<(), NoMemory>
        requires { HasRoom self.old }
        ensures state { OnOk result (self.new ≡ (flush self.old).0) }
        ensures shown { OnOk result
            (out.new.items ≡ out.old.items ++ print_all line (flush self.old).1) }
    {
        if self.filling.is_empty() {
            return put_event(out, line, &Event::Nothing);
        }
        if self.is_window_full() {
            return self.refuse(Refusal::WindowFull, line, out);
        }
        self.send(line, out)
    }

    /// Confirms each entry that was sent, in order.
    #[tactic(auto, unfolding(crate::specs::Machine::confirm))]
    pub fn confirm(&mut self, line: u32, out: &mut Vec<u8>) -> Result<(), NoMemory>
        ensures state { OnOk result (self.new ≡ (confirm self.old).0) }
        ensures shown { OnOk result
            (out.new.items ≡ out.old.items ++ print_all line (confirm self.old).1) }
    {
        put_entries(out, line, &self.stream, &self.waiting)?;
        self.waiting.clear();
        Ok(())
    }

    fn is_window_full(&self) -> bool
        ensures { result ≡ is_window_full self.now }
    {
        self.waiting.len() >= WINDOW
    }

    fn refuse(&self, refusal: Refusal, line: u32, out: &mut Vec<u8>) -> Result<(), NoMemory>
        ensures { OnOk result
            (out.new.items ≡ out.old.items ++ print_event line
            (Event.Refused self.now.client refusal)) }
    {
        let event = Event::Refused {
            client: self.client,
            refusal,
        };
        put_event(out, line, &event)
    }

    /// Takes a record into the entry under way.
    #[tactic(auto, unfolding(crate::specs::Machine::take))]
    fn take(
        &mut self,
        txid: TxId,
        payload: &[u8],
        line: u32,
        out: &mut Vec<u8>,
    ) -> Result<(), NoMemory>
        requires room { self.old.taken + 1 < 2 ^ 32 }
        requires fits { entry_size self.old.filling + record_size (length payload.now) ≤ MAX_ENTRY }
        ensures state { OnOk result (self.new ≡ (take self.old txid payload.now).0) }
        ensures shown { OnOk result
            (out.new.items ≡ out.old.items ++ print_all line (take self.old txid payload.now).1) }
    {
        let call = self.taken + 1;
        let head = Head {
            place: Dlsn {
                segment: SEGMENT,
                entry: self.sent,
                slot: self.filling.len() as u32,
            },
            txid,
            origin: Origin {
                client: self.client,
                call,
            },
            length: payload.len() as u32,
        };
        put_took(out, line, head.origin, &self.stream, txid, payload)?;
        self.filling.push(head, payload)?;
        self.taken = call;
        self.last = txid;
        Ok(())
    }

    /// Sends the entry under way.
    #[tactic(auto, unfolding(crate::specs::Machine::send))]
    fn send(&mut self, line: u32, out: &mut Vec<u8>) -> Result<(), NoMemory>
        requires { self.old.sent + 1 < 2 ^ 64 }
        ensures state { OnOk result (self.new ≡ (send self.old).0) }
        ensures shown { OnOk result
            (out.new.items ≡ out.old.items ++ print_all line (send self.old).1) }
    {
        let entry = mem::replace(&mut self.filling, Entry::new(self.alloc));
        self.waiting.push(entry)?;
        put_sent(out, line, self.client, SEGMENT, self.sent)?;
        self.sent += 1;
        Ok(())
    }
}

/// Prints that each row stands in the stream, by the heads of the rows and their payloads, one behind the other.
fn put_grows(
    out: &mut Vec<u8>,
    line: u32,
    stream: &Name,
    heads: &[Head],
    payloads: &[u8],
) -> Result<(), NoMemory>
    requires { payload_bytes heads.now ≡ length payloads.now }
    ensures { OnOk result (out.new.items ≡ out.old.items
        ++ print_all line (map (grow stream.now) (rows_of heads.now payloads.now))) }
{
    let mut left = payloads;
    for head in heads {
        let (payload, rest) = left.split_at(head.length as usize);
        put_grow(
            out,
            line,
            stream,
            head.place,
            head.txid,
            head.origin,
            payload,
        )?;
        left = rest;
    }
    Ok(())
}

/// Prints that the row of each head is acknowledged.
fn put_acks(out: &mut Vec<u8>, line: u32, heads: &[Head]) -> Result<(), NoMemory>
    ensures { OnOk result
        (out.new.items ≡ out.old.items ++ print_all line (map head_ack heads.now)) }
{
    for head in heads {
        put_ack(out, line, head.origin, head.place)?;
    }
    Ok(())
}

/// Prints that an entry is confirmed.
fn put_entry(out: &mut Vec<u8>, line: u32, stream: &Name, entry: &Entry) -> Result<(), NoMemory>
    ensures { OnOk result
        (out.new.items ≡ out.old.items ++ print_all line (entry_events stream.now entry.now)) }
{
    let (heads, payloads) = entry.parts();
    put_grows(out, line, stream, heads, payloads)?;
    put_acks(out, line, heads)?;
    Ok(())
}

/// Prints that the entries are confirmed, in order.
fn put_entries(
    out: &mut Vec<u8>,
    line: u32,
    stream: &Name,
    entries: &[Entry],
) -> Result<(), NoMemory>
    ensures { OnOk result (out.new.items ≡ out.old.items
        ++ print_all line (flat_map (entry_events stream.now) entries.now)) }
{
    for entry in entries {
        put_entry(out, line, stream, entry)?;
    }
    Ok(())
}
