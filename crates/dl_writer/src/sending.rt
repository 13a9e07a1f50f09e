ghost use Rattle.std.specs.Prelude.{◌≡◌, ◌+◌, ◌<◌, ◌≤◌, ◌^◌, ◌∷◌, [], length, map, take, drop, flat_map, None, IfOk};
ghost use Rattle.dl_rules_stream.specs.LogWriters.{pending_from, rows_at};
ghost use Rattle.dl_rules_ledger.specs.declared.window.TheConstants.{WINDOW};
ghost use Rattle.dl_writer.specs.Sending.{SendsOn, MaySend, row_spot};

use crate::acked::Spots;
use crate::taken::Taken;
use bytes::Bytes;
use dl_lwrite::send_fault::SendFault;
use dl_lwrite::writer::LedgerWriter;
use dl_msg::letters::Letters;
use dl_types::dlsn::Dlsn;
use dl_types::memory::NoMemory;
use dl_types::payload::Payload;
use dl_types::payloads::Payloads;
use dl_types::row::{Origin, Row};
use dl_types::txid::TxId;
use std::alloc::Global;
use std::collections::VecDeque;

/// The records of a set, which share a transaction id; their calls are numbered from the first one on.
#[tactic(auto, using(crate::proofs::DraftLemmas::pending_more))]
pub(crate) fn taken_from(
    alloc: Global,
    origin: Origin,
    txid: TxId,
    payloads: &[Payload],
) -> Result<Vec<Taken>, NoMemory>
    requires { origin.call + length payloads.now ≤ 2 ^ 32 }
    ensures { IfOk result (λ rows. rows.items ≡ pending_from origin txid payloads.now) }
{
    let mut rows = Vec::with_capacity(alloc, payloads.len())?;
    for (i, payload) in payloads.iter().enumerate() {
        rows.push(Taken::new(origin, i as u32, txid, payload)?)?;
    }
    Ok(rows)
}

/// Other owners of these payloads.
pub(crate) fn share_all(alloc: Global, payloads: &[Payload]) -> Result<Payloads, NoMemory>
    ensures { IfOk result (λ shared. shared ≡ payloads.now) }
{
    let mut shared = Vec::with_capacity(alloc, payloads.len())?;
    for payload in payloads {
        shared.push(payload.share()?)?;
    }
    Ok(Payloads::from_vec(shared))
}

/// Records at their places in an entry.
#[tactic(auto, using(crate::proofs::DraftLemmas::rows_more))]
pub(crate) fn placed_rows(
    alloc: Global,
    segment: u64,
    entry: u64,
    taken: &[Taken],
) -> Result<Vec<Row>, NoMemory>
    requires { length taken.now < 2 ^ 32 }
    ensures { IfOk result (λ rows. rows.items ≡ rows_at segment entry 0 taken.now) }
{
    let mut rows = Vec::with_capacity(alloc, taken.len())?;
    for (i, record) in taken.iter().enumerate() {
        let place = Dlsn {
            segment,
            entry,
            slot: i as u32,
        };
        rows.push(record.at(place)?)?;
    }
    Ok(rows)
}

/// Where rows come from and stand.
pub(crate) fn spots_of(alloc: Global, rows: &[Row]) -> Result<Spots, NoMemory>
    ensures { IfOk result (λ spots. spots ≡ map row_spot rows.now) }
{
    let mut spots = Vec::with_capacity(alloc, rows.len())?;
    for row in rows {
        spots.push((row.origin, row.place))?;
    }
    Ok(Spots::from_vec(spots))
}

/// The spots of the first entries that wait.
#[tactic(auto, using(crate::proofs::DraftLemmas::flat_more))]
pub(crate) fn first_spots(
    alloc: Global,
    waiting: &VecDeque<Spots>,
    count: usize,
) -> Result<Spots, NoMemory>
    requires { count ≤ length waiting.now.items }
    ensures { IfOk result (λ spots. spots ≡ flat_map (λ x. x) (take count waiting.now.items)) }
{
    let mut spots = Vec::new(alloc);
    for i in 0..count {
        spots.extend_from_slice(waiting[i].as_slice())?;
    }
    Ok(Spots::from_vec(spots))
}

/// Lets the first entries wait no more.
pub(crate) fn drop_front(waiting: &mut VecDeque<Spots>, count: usize)
    ensures { waiting.new.items ≡ drop count waiting.old.items }
{
    let mut left = count;
    while left > 0 {
        let _ = waiting.pop_front();
        left -= 1;
    }
}

/// A ledger's writer that has sent an entry more, and the messages by which it is sent.
pub(crate) fn send_on(
    ledger: &LedgerWriter,
    bytes: Bytes,
) -> Result<(LedgerWriter, Letters), NoMemory>
    requires { MaySend ledger.now }
    ensures { IfOk result (λ x. SendsOn ledger.now bytes x.1 x.0) }
{
    let mut ledger = ledger.clone()?;
    match ledger.send(bytes) {
        Ok((_, letters)) => Ok((ledger, letters)),
        Err(SendFault::NoMemory) => Err(NoMemory),
        Err(_) => unreachable!(),
    }
}
