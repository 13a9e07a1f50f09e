//! The values of a stream's nodes, from the bytes that a task heard. Where the bytes are not in the form of their node, the
//! order gives up at its path.

ghost use Rattle.std.specs.Prelude.{◌≡◌, ◌≤◌, IfOk};
ghost use Rattle.dl_formats.specs.NodeBytes.{IsMaxSeq, IsSegmentMeta, ten_nines};
ghost use Rattle.dl_formats.specs.Reading.{alloc_at, cut_at, maxseq_at, segment_at};
ghost use Rattle.dl_rules_stream.specs.Listings.{alloc_of, point_of, maxseq_of, segment_of, is_named, ledger_of};

use crate::segments::segment_path;
use dl_formats::allocation::Alloc;
use dl_formats::cut::Cut;
use dl_formats::decode::{decode_alloc, decode_cut, decode_maxseq, decode_segment};
use dl_formats::fault::MetaBytesFault;
use dl_formats::maxseq::MaxSeq;
use dl_formats::paths::{alloc_path, cut_path, maxseq_path};
use dl_formats::segment::SegmentMeta;
use dl_formats::segment_name::SegmentName;
use dl_types::dlsn::Dlsn;
use dl_types::memory::NoMemory;
use dl_types::name::Name;
use dl_types::refusal::Refusal;
use std::alloc::Global;

/// What the bytes of a node `alloc` spell.
fn alloc_at(bytes: &[u8]) -> Result<Alloc, MetaBytesFault>
    ensures { result ≡ alloc_at bytes.now }
{
    decode_alloc(bytes)
}

/// What the bytes of a node `cut` spell.
fn cut_at(bytes: &[u8]) -> Result<Cut, MetaBytesFault>
    ensures { result ≡ cut_at bytes.now }
{
    decode_cut(bytes)
}

/// What the bytes of a node `maxseq` spell.
fn maxseq_at(bytes: &[u8]) -> Result<MaxSeq, MetaBytesFault>
    ensures value { result ≡ maxseq_at bytes.now }
    ensures valid { IfOk result IsMaxSeq }
{
    decode_maxseq(bytes)
}

/// What the bytes of a segment's node spell.
fn segment_at(bytes: &[u8]) -> Result<SegmentMeta, MetaBytesFault>
    ensures value { result ≡ segment_at bytes.now }
    ensures valid { IfOk result IsSegmentMeta }
{
    decode_segment(bytes)
}

/// The ledger that the bytes of a stream's node `alloc` name, where they name one, or the refusal by which an order gives up
/// there.
pub fn alloc_of(
    alloc: Global,
    stream: &Name,
    bytes: &[u8],
) -> Result<Result<Option<u64>, Refusal>, NoMemory>
    ensures { IfOk result (λ read. read ≡ alloc_of stream.now bytes.now) }
{
    match alloc_at(bytes) {
        Ok(node) => Ok(Ok(node.ledger)),
        Err(_) => {
            let path = alloc_path(alloc, stream)?;
            Ok(Err(Refusal::GaveUp { path }))
        }
    }
}

/// The point that the bytes of a stream's node `cut` name, or the refusal by which an order gives up there.
pub fn point_of(
    alloc: Global,
    stream: &Name,
    bytes: &[u8],
) -> Result<Result<Dlsn, Refusal>, NoMemory>
    ensures { IfOk result (λ read. read ≡ point_of stream.now bytes.now) }
{
    match cut_at(bytes) {
        Ok(cut) => Ok(Ok(cut.point)),
        Err(_) => {
            let path = cut_path(alloc, stream)?;
            Ok(Err(Refusal::GaveUp { path }))
        }
    }
}

/// What the bytes of a stream's node `maxseq` say, or the refusal by which an order gives up there.
pub fn maxseq_of(
    alloc: Global,
    stream: &Name,
    bytes: &[u8],
) -> Result<Result<MaxSeq, Refusal>, NoMemory>
    ensures value { IfOk result (λ read. read ≡ maxseq_of stream.now bytes.now) }
    ensures valid { IfOk result (λ read. IfOk read IsMaxSeq) }
{
    match maxseq_at(bytes) {
        Ok(maxseq) => Ok(Ok(maxseq)),
        Err(_) => {
            let path = maxseq_path(alloc, stream)?;
            Ok(Err(Refusal::GaveUp { path }))
        }
    }
}

/// Whether a segment is that of a name: of its number, and in progress or completed as its letter says.
fn is_named(name: SegmentName, meta: &SegmentMeta) -> bool
    ensures { result ≡ is_named name meta.now }
{
    match (name, meta) {
        (SegmentName::Progress { segment: k }, SegmentMeta::InProgress { segment, .. }) => {
            *segment == k
        }
        (SegmentName::Completed { segment: k }, SegmentMeta::Completed { segment, .. }) => {
            *segment == k
        }
        _ => false,
    }
}

/// The segment that the bytes of the node of this name hold, or the refusal by which an order gives up there.
pub fn segment_of(
    alloc: Global,
    stream: &Name,
    name: SegmentName,
    bytes: &[u8],
) -> Result<Result<SegmentMeta, Refusal>, NoMemory>
    ensures value { IfOk result (λ read. read ≡ segment_of stream.now name bytes.now) }
    ensures valid { IfOk result (λ read. IfOk read IsSegmentMeta) }
{
    if let Ok(meta) = segment_at(bytes) {
        if is_named(name, &meta) {
            return Ok(Ok(meta));
        }
    }
    let path = segment_path(alloc, stream, name)?;
    Ok(Err(Refusal::GaveUp { path }))
}

/// The ledger that stores a segment.
pub fn ledger_of(meta: &SegmentMeta) -> u64
    ensures value { result ≡ ledger_of meta.now }
    ensures few { IsSegmentMeta meta.now → result ≤ ten_nines }
{
    match meta {
        SegmentMeta::InProgress { ledger, .. } => *ledger,
        SegmentMeta::Completed { ledger, .. } => *ledger,
    }
}
