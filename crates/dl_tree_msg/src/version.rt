ghost use Rattle.std.specs.Prelude.{◌≡◌, ◌≤◌, ◌++◌, length, OnOk};
ghost use Rattle.dl_fields.specs.Readers.{Reads};
ghost use Rattle.dl_tree_msg.specs.Versions.{version_bytes, version_from};
ghost use Rattle.dl_tree_msg.specs.Sizes.{max_version};

use dl_codec::write::put_u64;
use dl_fields::fault::Fault;
use dl_fields::flag::{put_flag, read_flag};
use dl_fields::number::read_u64;
use dl_types::memory::NoMemory;
use std::alloc::Global;

/// A version that is named, or none, and the bytes behind it.
pub(crate) fn read_version(bytes: &[u8]) -> Result<(Option<u64>, &[u8]), Fault>
    ensures { Reads (λ x. (x.0, x.1.now)) result (version_from bytes.now) }
{
    let (named, rest) = read_flag(bytes)?;
    if named {
        let (version, rest) = read_u64(rest)?;
        Ok((Some(version), rest))
    } else {
        Ok((None, rest))
    }
}

/// Adds a version that is named, or none.
pub(crate) fn put_version(
    alloc: Global,
    out: &mut Vec<u8>,
    version: Option<u64>,
) -> Result<(), NoMemory>
    ensures { OnOk result (out.new.items ≡ out.old.items ++ version_bytes version) }
{
    match version {
        None => put_flag(alloc, out, false),
        Some(version) => {
            put_flag(alloc, out, true)?;
            put_u64(alloc, out, version)
        }
    }
}

/// How many bytes a version has.
#[tactic(auto, using(dl_fields::proofs::SizeLemmas::sizes))]
pub(crate) fn size_of_version(version: Option<u64>) -> u64
    ensures exact { result ≡ length (version_bytes version) }
    ensures bound { result ≤ max_version }
{
    match version {
        None => 1,
        Some(_) => 9,
    }
}
