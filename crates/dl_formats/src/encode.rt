//! Writers of the bytes of nodes: each gives the layout of every value, which is the one spelling of a value that has one. No
//! reader takes the bytes of another value.

ghost use Rattle.std.specs.Prelude.{◌≡◌, ◌++◌, IfOk};
ghost use Rattle.std.specs.Int.{w8, w64};
ghost use Rattle.dl_codec.specs.Fields.{field};
ghost use Rattle.dl_formats.specs.NodeBytes.{state_code, conf_bytes, ledger_bytes, segment_bytes};
ghost use Rattle.dl_formats.specs.NodeBytes.{maxseq_bytes, cut_bytes, alloc_bytes};

use crate::allocation::Alloc;
use crate::conf::Conf;
use crate::cut::Cut;
use crate::ledger::{LedgerMeta, LedgerState};
use crate::maxseq::MaxSeq;
use crate::segment::SegmentMeta;
use dl_codec::write::{put_u8, put_u32, put_u64};
use dl_types::memory::NoMemory;
use std::alloc::Global;

/// The bytes of `/conf`.
pub fn encode_conf(alloc: Global, value: &Conf) -> Result<Vec<u8>, NoMemory>
    ensures { IfOk result (λ bytes. bytes.items ≡ conf_bytes value.now) }
{
    let mut out = Vec::new(alloc);
    put_u8(alloc, &mut out, 1)?;
    put_u8(alloc, &mut out, value.b)?;
    put_u8(alloc, &mut out, value.e)?;
    put_u8(alloc, &mut out, value.qw)?;
    put_u8(alloc, &mut out, value.qa)?;
    Ok(out)
}

/// The byte of a ledger's state.
fn state_code(state: LedgerState) -> u8
    ensures { result ≡ state_code state }
{
    match state {
        LedgerState::Writing => 1,
        LedgerState::Recovering => 2,
        LedgerState::Closed => 3,
    }
}

/// The bytes of a ledger's node.
pub fn encode_ledger(alloc: Global, value: &LedgerMeta) -> Result<Vec<u8>, NoMemory>
    ensures { IfOk result (λ bytes. bytes.items ≡ ledger_bytes value.now) }
{
    let mut out = Vec::new(alloc);
    put_u8(alloc, &mut out, 1)?;
    put_u8(alloc, &mut out, state_code(value.state))?;
    put_u8(alloc, &mut out, value.q.e)?;
    put_u8(alloc, &mut out, value.q.qw)?;
    put_u8(alloc, &mut out, value.q.qa)?;
    put_u64(alloc, &mut out, value.count)?;
    Ok(out)
}

/// Bytes with the version, the kind, the segment and its ledger, with which those of both kinds of segments begin.
fn segment_head(alloc: Global, kind: u8, segment: u64, ledger: u64) -> Result<Vec<u8>, NoMemory>
    ensures { IfOk result (λ bytes. bytes.items ≡ field w8 1 ++ (field w8 kind ++ (field w64 segment
        ++ field w64 ledger))) }
{
    let mut out = Vec::new(alloc);
    put_u8(alloc, &mut out, 1)?;
    put_u8(alloc, &mut out, kind)?;
    put_u64(alloc, &mut out, segment)?;
    put_u64(alloc, &mut out, ledger)?;
    Ok(out)
}

/// The bytes of a segment's node.
pub fn encode_segment(alloc: Global, value: &SegmentMeta) -> Result<Vec<u8>, NoMemory>
    ensures { IfOk result (λ bytes. bytes.items ≡ segment_bytes value.now) }
{
    match value {
        SegmentMeta::InProgress { segment, ledger } => segment_head(alloc, 1, *segment, *ledger),
        SegmentMeta::Completed {
            segment,
            ledger,
            entries,
            rows,
            last,
        } => {
            let mut out = segment_head(alloc, 2, *segment, *ledger)?;
            put_u64(alloc, &mut out, *entries)?;
            put_u64(alloc, &mut out, *rows)?;
            put_u64(alloc, &mut out, last.number())?;
            Ok(out)
        }
    }
}

/// The bytes of a stream's node `maxseq`.
pub fn encode_maxseq(alloc: Global, value: &MaxSeq) -> Result<Vec<u8>, NoMemory>
    ensures { IfOk result (λ bytes. bytes.items ≡ maxseq_bytes value.now) }
{
    let mut out = Vec::new(alloc);
    put_u8(alloc, &mut out, 1)?;
    put_u64(alloc, &mut out, value.segment)?;
    put_u64(alloc, &mut out, value.last.number())?;
    Ok(out)
}

/// The bytes of a stream's node `cut`.
pub fn encode_cut(alloc: Global, value: &Cut) -> Result<Vec<u8>, NoMemory>
    ensures { IfOk result (λ bytes. bytes.items ≡ cut_bytes value.now) }
{
    let mut out = Vec::new(alloc);
    put_u8(alloc, &mut out, 1)?;
    put_u64(alloc, &mut out, value.point.segment)?;
    put_u64(alloc, &mut out, value.point.entry)?;
    put_u32(alloc, &mut out, value.point.slot)?;
    Ok(out)
}

/// The bytes of a stream's node `alloc`.
pub fn encode_alloc(alloc: Global, value: &Alloc) -> Result<Vec<u8>, NoMemory>
    ensures { IfOk result (λ bytes. bytes.items ≡ alloc_bytes value.now) }
{
    let mut out = Vec::new(alloc);
    put_u8(alloc, &mut out, 1)?;
    match value.ledger {
        None => {
            put_u8(alloc, &mut out, 0)?;
            put_u64(alloc, &mut out, 0)?;
            Ok(out)
        }
        Some(ledger) => {
            put_u8(alloc, &mut out, 1)?;
            put_u64(alloc, &mut out, ledger)?;
            Ok(out)
        }
    }
}
