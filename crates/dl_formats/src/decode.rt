//! Readers of the bytes of nodes. Each refuses all bytes but the one spelling of a value, and names the first fault in the
//! order of the bytes. None takes memory.

ghost use Rattle.std.specs.Prelude.{◌≡◌};
ghost use Rattle.dl_types.specs.Quorums.{IsQuorum};
ghost use Rattle.dl_formats.specs.NodeBytes.{conf_bytes, IsConf, most_count, fields_of, ledger_bytes};
ghost use Rattle.dl_formats.specs.NodeBytes.{IsLedgerMeta, segment_bytes, IsSegmentMeta, maxseq_bytes};
ghost use Rattle.dl_formats.specs.NodeBytes.{IsMaxSeq, cut_bytes, IsCut, alloc_bytes, IsAlloc};
ghost use Rattle.dl_formats.specs.Reading.{Reads, Decodes, conf_from, conf_at, state_from, ledger_from, ledger_at};
ghost use Rattle.dl_formats.specs.Reading.{in_progress_from, completed_from, kind_from, segment_from, segment_at};
ghost use Rattle.dl_formats.specs.Reading.{maxseq_from, maxseq_at, cut_from, cut_at, alloc_from, alloc_at};

use crate::allocation::Alloc;
use crate::conf::Conf;
use crate::cut::Cut;
use crate::fault::MetaBytesFault;
use crate::fields::{read_u8_between, read_u64_between};
use crate::ledger::{LedgerFields, LedgerMeta, LedgerState};
use crate::maxseq::MaxSeq;
use crate::node::{Fields, read_node};
use crate::segment::SegmentMeta;
use dl_fields::fault::Fault;
use dl_fields::number::{read_u32, read_u64};
use dl_types::dlsn::Dlsn;
use dl_types::quorum::Quorum;
use dl_types::txid::{MAX_TXID, TxId};

/// The greatest number that ten digits spell.
const TEN_NINES: u64 = 9_999_999_999;

impl Fields for Conf {
    ghost from = { conf_from };

    fn read(bytes: &[u8]) -> Result<(Conf, &[u8]), Fault> {
        let (b, rest) = read_u8_between(1, 16, bytes)?;
        let (e, rest) = read_u8_between(1, b, rest)?;
        let (qw, rest) = read_u8_between(1, e, rest)?;
        let (qa, rest) = read_u8_between(1, qw, rest)?;
        Ok((Conf { b, e, qw, qa }, rest))
    }
}

/// The state of a ledger at the front, and the bytes behind it.
fn read_state(bytes: &[u8]) -> Result<(LedgerState, &[u8]), Fault>
    ensures { Reads (λ x. (x.0, x.1.now)) result (state_from bytes.now) }
{
    let (code, rest) = read_u8_between(1, 3, bytes)?;
    let state = match code {
        1 => LedgerState::Writing,
        2 => LedgerState::Recovering,
        _ => LedgerState::Closed,
    };
    Ok((state, rest))
}

/// The greatest count of entries that a ledger in this state may have.
fn most_count(state: LedgerState) -> u64
    ensures { result ≡ most_count state }
{
    match state {
        LedgerState::Writing | LedgerState::Recovering => 0,
        LedgerState::Closed => u64::MAX,
    }
}

impl Fields for LedgerFields {
    ghost from = { ledger_from };

    fn read(bytes: &[u8]) -> Result<(LedgerFields, &[u8]), Fault> {
        let (state, rest) = read_state(bytes)?;
        let (e, rest) = read_u8_between(1, 16, rest)?;
        let (qw, rest) = read_u8_between(1, e, rest)?;
        let (qa, rest) = read_u8_between(1, qw, rest)?;
        let (count, rest) = read_u64_between(0, most_count(state), rest)?;
        Ok((
            LedgerFields {
                state,
                e,
                qw,
                qa,
                count,
            },
            rest,
        ))
    }
}

/// A segment in progress behind its kind.
fn read_in_progress(bytes: &[u8]) -> Result<(SegmentMeta, &[u8]), Fault>
    ensures { Reads (λ x. (x.0, x.1.now)) result (in_progress_from bytes.now) }
{
    let (segment, rest) = read_u64_between(1, TEN_NINES, bytes)?;
    let (ledger, rest) = read_u64_between(0, TEN_NINES, rest)?;
    Ok((SegmentMeta::InProgress { segment, ledger }, rest))
}

/// A complete segment behind its kind.
fn read_completed(bytes: &[u8]) -> Result<(SegmentMeta, &[u8]), Fault>
    ensures { Reads (λ x. (x.0, x.1.now)) result (completed_from bytes.now) }
{
    let (segment, rest) = read_u64_between(1, TEN_NINES, bytes)?;
    let (ledger, rest) = read_u64_between(0, TEN_NINES, rest)?;
    let (entries, rest) = read_u64(rest)?;
    let (rows, rest) = read_u64(rest)?;
    let (last, rest) = read_u64_between(0, MAX_TXID, rest)?;
    let last = TxId::new(last);
    Ok((
        SegmentMeta::Completed {
            segment,
            ledger,
            entries,
            rows,
            last,
        },
        rest,
    ))
}

impl Fields for SegmentMeta {
    ghost from = { segment_from };

    fn read(bytes: &[u8]) -> Result<(SegmentMeta, &[u8]), Fault> {
        let (kind, rest) = read_u8_between(1, 2, bytes)?;
        if kind == 1 {
            read_in_progress(rest)
        } else {
            read_completed(rest)
        }
    }
}

impl Fields for MaxSeq {
    ghost from = { maxseq_from };

    fn read(bytes: &[u8]) -> Result<(MaxSeq, &[u8]), Fault> {
        let (segment, rest) = read_u64_between(0, TEN_NINES, bytes)?;
        let (last, rest) = read_u64_between(0, MAX_TXID, rest)?;
        let last = TxId::new(last);
        Ok((MaxSeq { segment, last }, rest))
    }
}

impl Fields for Cut {
    ghost from = { cut_from };

    fn read(bytes: &[u8]) -> Result<(Cut, &[u8]), Fault> {
        let (segment, rest) = read_u64_between(1, u64::MAX, bytes)?;
        let (entry, rest) = read_u64(rest)?;
        let (slot, rest) = read_u32(rest)?;
        let point = Dlsn {
            segment,
            entry,
            slot,
        };
        Ok((Cut { point }, rest))
    }
}

impl Fields for Alloc {
    ghost from = { alloc_from };

    fn read(bytes: &[u8]) -> Result<(Alloc, &[u8]), Fault> {
        let (flag, rest) = read_u8_between(0, 1, bytes)?;
        let most = if flag == 0 { 0 } else { TEN_NINES };
        let (ledger, rest) = read_u64_between(0, most, rest)?;
        let ledger = if flag == 0 { None } else { Some(ledger) };
        Ok((Alloc { ledger }, rest))
    }
}

/// The configuration that the bytes of `/conf` spell.
pub fn decode_conf(bytes: &[u8]) -> Result<Conf, MetaBytesFault>
    ensures { Decodes IsConf conf_bytes conf_at bytes.now result }
{
    read_node::<Conf>(bytes)
}

/// The metadata of these fields.
fn ledger_with(fields: LedgerFields) -> LedgerMeta
    requires { IsQuorum fields.e fields.qw fields.qa }
    ensures { fields_of result ≡ fields }
{
    let LedgerFields {
        state,
        e,
        qw,
        qa,
        count,
    } = fields;
    LedgerMeta {
        state,
        q: Quorum { e, qw, qa },
        count,
    }
}

/// The metadata that the bytes of a ledger's node spell.
pub fn decode_ledger(bytes: &[u8]) -> Result<LedgerMeta, MetaBytesFault>
    ensures { Decodes IsLedgerMeta ledger_bytes ledger_at bytes.now result }
{
    match read_node::<LedgerFields>(bytes) {
        Ok(fields) => Ok(ledger_with(fields)),
        Err(fault) => Err(fault),
    }
}

/// The segment that the bytes of a segment's node spell.
pub fn decode_segment(bytes: &[u8]) -> Result<SegmentMeta, MetaBytesFault>
    ensures { Decodes IsSegmentMeta segment_bytes segment_at bytes.now result }
{
    read_node::<SegmentMeta>(bytes)
}

/// What the bytes of a stream's node `maxseq` spell.
pub fn decode_maxseq(bytes: &[u8]) -> Result<MaxSeq, MetaBytesFault>
    ensures { Decodes IsMaxSeq maxseq_bytes maxseq_at bytes.now result }
{
    read_node::<MaxSeq>(bytes)
}

/// The place that the bytes of a stream's node `cut` spell.
pub fn decode_cut(bytes: &[u8]) -> Result<Cut, MetaBytesFault>
    ensures { Decodes IsCut cut_bytes cut_at bytes.now result }
{
    read_node::<Cut>(bytes)
}

/// The ledger, or none, that the bytes of a stream's node `alloc` spell.
pub fn decode_alloc(bytes: &[u8]) -> Result<Alloc, MetaBytesFault>
    ensures { Decodes IsAlloc alloc_bytes alloc_at bytes.now result }
{
    read_node::<Alloc>(bytes)
}
