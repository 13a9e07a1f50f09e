ghost use Rattle.std.specs.Prelude.{◌≡◌, ℕ, ◌==◌, ◌++◌, not, ◌-◌, ◌≤◌, length, IfOk, bytes_eq};
ghost use Rattle.dl_fields.specs.Digits.{digits};
ghost use Rattle.dl_fields.specs.Paths.{last_length};
ghost use Rattle.dl_tree.specs.Paths.{name_of, front_of, parent_of, with_byte};
ghost use Rattle.dl_tree.specs.Paths.{below, past_below, is_below, root};

use bytes::Bytes;
use dl_fields::digits::put_digits;
use dl_fields::path::last_length;
use dl_types::memory::NoMemory;
use dl_types::path::Path;
use std::alloc::Global;

/// Where the last part begins.
fn name_start(path: &[u8]) -> usize
    ensures start { result ≡ length path.now - last_length path.now }
    ensures within { result ≤ length path.now }
{
    path.len().saturating_sub(last_length(path))
}

/// The last part, without its slash.
#[tactic(auto, unfolding(crate::specs::Paths::name_of))]
pub(crate) fn name(alloc: Global, path: &[u8]) -> Result<Path, NoMemory>
    ensures { IfOk result (λ name. name ≡ name_of path.now) }
{
    Path::new(alloc, &path[name_start(path)..])
}

/// Whether a path is this beginning and one more part.
#[tactic(auto, unfolding(crate::specs::Paths::name_of, crate::specs::Paths::front_of))]
pub(crate) fn is_below(prefix: &[u8], path: &[u8]) -> bool
    ensures { result ≡ is_below prefix.now path.now }
{
    let start = name_start(path);
    let name = &path[start..];
    &path[..start] == prefix && !name.is_empty()
}

/// A path, without the slash that is the root's, and one more byte.
fn extended(alloc: Global, path: &[u8], byte: u8) -> Result<Path, NoMemory>
    ensures { IfOk result (λ made. made ≡ with_byte path.now byte) }
{
    let mut text = Vec::new(alloc);
    if !is_root(path) {
        text.extend_from_slice(path)?;
    }
    text.push(byte)?;
    Path::from_vec(text)
}

/// With which the path of each child of a node begins.
pub(crate) fn below(alloc: Global, path: &[u8]) -> Result<Path, NoMemory>
    ensures { IfOk result (λ prefix. prefix ≡ below path.now) }
{
    extended(alloc, path, b'/')
}

/// The least path, in byte order, above all that begin with the path of a node and a slash.
pub(crate) fn past_below(alloc: Global, path: &[u8]) -> Result<Path, NoMemory>
    ensures { IfOk result (λ end. end ≡ past_below path.now) }
{
    extended(alloc, path, b'0')
}

/// Whether a path is the root's.
pub(crate) fn is_root(path: &[u8]) -> bool
    ensures { result ≡ bytes_eq path.now root }
{
    path == b"/".as_slice()
}

/// The path of a node's parent. It shares the bytes of the path, and takes no memory of its own.
#[tactic(auto, unfolding(crate::specs::Paths::parent_of))]
pub(crate) fn parent(path: &Path) -> Result<Path, NoMemory>
    ensures { IfOk result (λ parent. parent ≡ parent_of path.now) }
{
    let start = name_start(path.as_slice());
    if start == 1 {
        return Ok(Path::from_bytes(Bytes::from_static(b"/")));
    }
    let bytes = path.share()?.into_bytes();
    let front = bytes.slice(0..start.saturating_sub(1))?;
    Ok(Path::from_bytes(front))
}

/// The path with ten digits of a number added.
pub(crate) fn with_digits(alloc: Global, path: &[u8], number: u64) -> Result<Path, NoMemory>
    ensures { IfOk result (λ made. made ≡ path.now ++ digits 10 number) }
{
    let mut text = Vec::new(alloc);
    text.extend_from_slice(path)?;
    put_digits(&mut text, 10, number)?;
    Path::from_vec(text)
}
