//! The segments of a stream, by the names of the children of its node `segs`.

ghost use Rattle.std.specs.Prelude.{◌≡◌, ◌≤◌, ℕ, IfOk, IfSome, option_to_list, flat_map, nat_lt};
ghost use Rattle.dl_formats.specs.NodeBytes.{ten_nines};
ghost use Rattle.dl_rules_stream.specs.Listings.{segment_in, segments_of, number_of, last_segment};

use crate::numbers::segment_in;
use dl_formats::segment_name::SegmentName;
use dl_types::memory::NoMemory;
use dl_types::path::Path;
use std::alloc::Global;

/// The number of a segment.
pub fn number_of(segment: SegmentName) -> u64
    ensures { result ≡ number_of segment }
{
    match segment {
        SegmentName::Progress { segment } => segment,
        SegmentName::Completed { segment } => segment,
    }
}

/// The segments that names of children say, in the order of the names.
fn named(alloc: Global, names: &[Path]) -> Result<Vec<SegmentName>, NoMemory>
    ensures { IfOk result (λ segments.
        segments.items ≡ flat_map (λ name. option_to_list (segment_in name)) names.now) }
{
    let mut segments = Vec::new(alloc);
    for name in names {
        if let Some(segment) = segment_in(name.as_slice()) {
            segments.push(segment)?;
        }
    }
    Ok(segments)
}

/// The segments that names of children say, by their numbers. Where a number stands twice, the order is that of the names.
pub fn segments_of(alloc: Global, names: &[Path]) -> Result<Vec<SegmentName>, NoMemory>
    ensures { IfOk result (λ segments. segments.items ≡ segments_of names.now) }
{
    let mut segments = named(alloc, names)?;
    segments.sort_by_key(|segment| number_of(*segment))?;
    Ok(segments)
}

/// The last of these segments, where there is one.
#[tactic(auto, using(crate::proofs::ListingLemmas::last_is))]
fn last_segment(segments: &[SegmentName]) -> Option<SegmentName>
    ensures { result ≡ last_segment segments.now }
{
    let mut last = None;
    for segment in segments {
        last = Some(*segment);
    }
    last
}

/// The segment of the greatest number that names of children say, where they say one.
#[tactic(auto, using(crate::proofs::ListingLemmas::last_short))]
pub fn last_listed(alloc: Global, names: &[Path]) -> Result<Option<SegmentName>, NoMemory>
    ensures last { IfOk result (λ last. last ≡ last_segment (segments_of names.now)) }
    ensures few { IfOk result (λ last. IfSome last (λ segment. number_of segment ≤ ten_nines)) }
{
    let segments = segments_of(alloc, names)?;
    Ok(last_segment(segments.as_slice()))
}
