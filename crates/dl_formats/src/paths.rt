//! The paths of nodes, from what they are for. A number is put by its last ten digits; no ledger or segment has more.

ghost use Rattle.std.specs.Prelude.{◌≡◌, ◌++◌, IfOk};
ghost use Rattle.dl_fields.specs.Digits.{digits};
ghost use Rattle.dl_formats.specs.Keys.{Conf, Ledger, Stream, MaxSeq, Cut, Alloc, Locks, Segs};
ghost use Rattle.dl_formats.specs.Keys.{Progress, Completed, path_of, ledger_stem, member_stem};

use dl_fields::digits::put_digits;
use dl_types::memory::NoMemory;
use dl_types::name::Name;
use dl_types::path::Path;
use std::alloc::Global;

/// The bytes of a stream's path, with more behind them.
fn stream_bytes(alloc: Global, stream: &Name, more: &[u8]) -> Result<Vec<u8>, NoMemory>
    ensures { IfOk result (λ bytes. bytes.items ≡ path_of (Stream stream.now) ++ more.now) }
{
    let mut bytes = Vec::new(alloc);
    bytes.extend_from_slice(b"/streams/")?;
    bytes.extend_from_slice(stream.as_slice())?;
    bytes.extend_from_slice(more)?;
    Ok(bytes)
}

/// A stream's path, with more behind it.
fn path_in_stream(alloc: Global, stream: &Name, more: &[u8]) -> Result<Path, NoMemory>
    ensures { IfOk result (λ path. path ≡ path_of (Stream stream.now) ++ more.now) }
{
    let bytes = stream_bytes(alloc, stream, more)?;
    Path::from_vec(bytes)
}

/// A stream's path, with more behind it, and then the ten digits of a number.
fn numbered_path(alloc: Global, stream: &Name, more: &[u8], number: u64) -> Result<Path, NoMemory>
    ensures { IfOk result (λ path.
        path ≡ (path_of (Stream stream.now) ++ more.now) ++ digits 10 number) }
{
    let mut bytes = stream_bytes(alloc, stream, more)?;
    put_digits(&mut bytes, 10, number)?;
    Path::from_vec(bytes)
}

/// The path of the configuration, `/conf`.
pub fn conf_path(alloc: Global) -> Result<Path, NoMemory>
    ensures { IfOk result (λ path. path ≡ path_of Conf) }
{
    Path::new(alloc, b"/conf")
}

/// The path `/ledgers/L`, to which a counted create adds the ten digits of a new ledger.
pub fn ledger_stem(alloc: Global) -> Result<Path, NoMemory>
    ensures { IfOk result (λ path. path ≡ ledger_stem) }
{
    Path::new(alloc, b"/ledgers/L")
}

/// The path of a ledger's metadata.
pub fn ledger_path(alloc: Global, ledger: u64) -> Result<Path, NoMemory>
    ensures { IfOk result (λ path. path ≡ path_of (Ledger ledger)) }
{
    let mut bytes = Vec::new(alloc);
    bytes.extend_from_slice(b"/ledgers/L")?;
    put_digits(&mut bytes, 10, ledger)?;
    Path::from_vec(bytes)
}

/// The path of a stream.
pub fn stream_path(alloc: Global, stream: &Name) -> Result<Path, NoMemory>
    ensures { IfOk result (λ path. path ≡ path_of (Stream stream.now)) }
{
    path_in_stream(alloc, stream, b"")
}

/// The path of a stream's node `lock`, whose children are the members that wait for its lock.
pub fn lock_path(alloc: Global, stream: &Name) -> Result<Path, NoMemory>
    ensures { IfOk result (λ path. path ≡ path_of (Locks stream.now)) }
{
    path_in_stream(alloc, stream, b"/lock")
}

/// The path of `m-` below a stream's node `lock`, to which a counted create adds the ten digits of a new member.
pub fn member_stem(alloc: Global, stream: &Name) -> Result<Path, NoMemory>
    ensures { IfOk result (λ path. path ≡ member_stem stream.now) }
{
    path_in_stream(alloc, stream, b"/lock/m-")
}

/// The path of a stream's node `segs`, whose children are its segments.
pub fn segs_path(alloc: Global, stream: &Name) -> Result<Path, NoMemory>
    ensures { IfOk result (λ path. path ≡ path_of (Segs stream.now)) }
{
    path_in_stream(alloc, stream, b"/segs")
}

/// The path of a stream's node `maxseq`.
pub fn maxseq_path(alloc: Global, stream: &Name) -> Result<Path, NoMemory>
    ensures { IfOk result (λ path. path ≡ path_of (MaxSeq stream.now)) }
{
    path_in_stream(alloc, stream, b"/maxseq")
}

/// The path of a stream's node `cut`.
pub fn cut_path(alloc: Global, stream: &Name) -> Result<Path, NoMemory>
    ensures { IfOk result (λ path. path ≡ path_of (Cut stream.now)) }
{
    path_in_stream(alloc, stream, b"/cut")
}

/// The path of a stream's node `alloc`.
pub fn alloc_path(alloc: Global, stream: &Name) -> Result<Path, NoMemory>
    ensures { IfOk result (λ path. path ≡ path_of (Alloc stream.now)) }
{
    path_in_stream(alloc, stream, b"/alloc")
}

/// The path of a stream's segment while it is in progress.
pub fn progress_path(alloc: Global, stream: &Name, segment: u64) -> Result<Path, NoMemory>
    ensures { IfOk result (λ path. path ≡ path_of (Progress stream.now segment)) }
{
    numbered_path(alloc, stream, b"/segs/p", segment)
}

/// The path of a stream's segment once it is complete.
pub fn completed_path(alloc: Global, stream: &Name, segment: u64) -> Result<Path, NoMemory>
    ensures { IfOk result (λ path. path ≡ path_of (Completed stream.now segment)) }
{
    numbered_path(alloc, stream, b"/segs/c", segment)
}
