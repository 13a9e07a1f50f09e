ghost use Rattle.std.specs.Prelude.{◌≡◌, ◌≤◌, ◌+◌, length, IfSome, IfOk};
ghost use Rattle.dl_fields.specs.Readers.{Reads};
ghost use Rattle.dl_fields.specs.Paths.{is_part_byte, flaw_behind, path_flaw, part_flaw, some_from};
ghost use Rattle.dl_fields.specs.Paths.{path_from, name_from, last_length, is_stem, stem_from};

use crate::fault::Fault;
use crate::run::read_run_u16;

/// The most bytes of a part of a path.
const MAX_PART: usize = 80;

/// The most bytes of the last part of a path to which ten digits may be added.
const MAX_STEM_PART: usize = 70;

/// The most bytes of a path to which ten digits may be added: with them it fits its length of 16 bits.
const MAX_STEM: usize = 65_525;

/// Whether a byte may stand in a part.
fn is_part_byte(byte: u8) -> bool
    ensures { result ≡ is_part_byte byte }
{
    matches!(byte, b'a'..=b'z' | b'A'..=b'Z' | b'0'..=b'9' | b'_' | b'-')
}

/// How many bytes are left at the first one that breaks the form of a path, behind its first slash.
fn flaw_behind_slash(parts: &[u8]) -> Option<usize>
    ensures exact { result ≡ flaw_behind 0 parts.now }
    ensures within { IfSome result (λ back. back ≤ length parts.now + 1) }
{
    let mut size: usize = 0;
    let mut rest = parts;
    while let [byte, more @ ..] = rest {
        if *byte == b'/' {
            if size == 0 {
                return Some(rest.len());
            }
            size = 0;
        } else {
            if !is_part_byte(*byte) || size >= MAX_PART {
                return Some(rest.len());
            }
            size += 1;
        }
        rest = more;
    }
    if size == 0 { Some(1) } else { None }
}

/// How many bytes are left at the first one that breaks the form of a path that isn't empty, where one does: `/`, or a
/// `/` before each part of 1 to 80 letters, digits, `_` and `-`. A `/` that ends a longer path breaks it.
pub fn path_flaw(path: &[u8]) -> Option<usize>
    ensures exact { result ≡ path_flaw path.now }
    ensures within { IfSome result (λ back. back ≤ length path.now) }
{
    match path {
        [] => None,
        [first, parts @ ..] => {
            if *first != b'/' {
                Some(path.len())
            } else if parts.is_empty() {
                None
            } else {
                flaw_behind_slash(parts)
            }
        }
    }
}

/// How many bytes are left at the first one that breaks the form of a part, where one does.
pub fn part_flaw(part: &[u8]) -> Option<usize>
    ensures exact { result ≡ part_flaw 0 part.now }
    ensures within { IfSome result (λ back. back ≤ length part.now) }
{
    let mut size: usize = 0;
    let mut rest = part;
    while let [byte, more @ ..] = rest {
        if !is_part_byte(*byte) || size >= MAX_PART {
            return Some(rest.len());
        }
        size += 1;
        rest = more;
    }
    None
}

/// Bytes behind their length of 16 bits, at least one, and the bytes behind them.
fn read_some(bytes: &[u8]) -> Result<(&[u8], &[u8]), Fault>
    ensures exact { Reads (λ x. (x.0.now, x.1.now)) result (some_from bytes.now) }
    ensures room { IfOk result (λ x. length x.0.now + length x.1.now ≤ length bytes.now) }
{
    let (run, rest) = read_run_u16(bytes)?;
    if run.is_empty() {
        Err(Fault::Bad(bytes.len()))
    } else {
        Ok((run, rest))
    }
}

/// The bytes of a path behind their length, and the bytes behind it. An empty path is bad at the first byte of its
/// length, another one at the first byte that breaks the form.
pub fn read_path(bytes: &[u8]) -> Result<(&[u8], &[u8]), Fault>
    ensures { Reads (λ x. (x.0.now, x.1.now)) result (path_from bytes.now) }
{
    let (path, rest) = read_some(bytes)?;
    match path_flaw(path) {
        None => Ok((path, rest)),
        Some(back) => Err(Fault::Bad(rest.len() + back)),
    }
}

/// The bytes of a listing's name behind their length, and the bytes behind it. An empty name is bad at the first byte of
/// its length, another one at the first byte that breaks the form of a part.
pub fn read_name(bytes: &[u8]) -> Result<(&[u8], &[u8]), Fault>
    ensures { Reads (λ x. (x.0.now, x.1.now)) result (name_from bytes.now) }
{
    let (name, rest) = read_some(bytes)?;
    match part_flaw(name) {
        None => Ok((name, rest)),
        Some(back) => Err(Fault::Bad(rest.len() + back)),
    }
}

/// How many bytes the last part has: those behind the last slash.
pub fn last_length(path: &[u8]) -> usize
    ensures { result ≡ last_length path.now }
{
    path.iter().rev().take_while(|byte| **byte != b'/').count()
}

/// Whether ten digits may be added to a path: its last part has at most 70 bytes, and the path at most 65,525.
pub fn is_stem(path: &[u8]) -> bool
    ensures { result ≡ is_stem path.now }
{
    last_length(path) <= MAX_STEM_PART && path.len() <= MAX_STEM
}

/// The bytes of a path to which ten digits may be added, behind their length, and the bytes behind it. A path that has
/// no room for them is bad at the first byte of its length.
pub fn read_stem(bytes: &[u8]) -> Result<(&[u8], &[u8]), Fault>
    ensures { Reads (λ x. (x.0.now, x.1.now)) result (stem_from bytes.now) }
{
    let (path, rest) = read_path(bytes)?;
    if is_stem(path) {
        Ok((path, rest))
    } else {
        Err(Fault::Bad(bytes.len()))
    }
}
