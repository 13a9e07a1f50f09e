ghost use Rattle.std.specs.Prelude.{◌≡◌, ◌<◌, ◌*◌, ◌/◌, ◌%◌, [], IfOk, true, length};
ghost use Rattle.std.specs.List.{list_all};
ghost use Rattle.dl_text.specs.Readers.{Gives};
ghost use Rattle.dl_text.specs.Hex.{is_hex, hex_value, hex_char, hex, hex_at, end_at};
ghost use Rattle.dl_text.specs.Hex.{pairs, pairs_at, bytes_of, IsDigitCount};
ghost use Rattle.dl_text.specs.Outputs.{Puts};

use crate::stop::Stop;
use dl_types::memory::NoMemory;
use memchr::memchr;
use std::alloc::Global;

/// Whether a byte is a lower-case hex digit.
fn is_digit(byte: u8) -> bool
    ensures { result ≡ is_hex byte }
{
    matches!(byte, b'0'..=b'9' | b'a'..=b'f')
}

/// The value of a hex digit.
fn value_of(digit: u8) -> u8
    requires { is_hex digit ≡ true }
    ensures value { result ≡ hex_value digit }
    ensures small { result < 16 }
{
    if digit <= b'9' {
        digit - b'0'
    } else {
        digit - (b'a' - 10)
    }
}

/// Whether all of the bytes are hex digits. It looks at each, so that the compiler can take many at once.
fn are_digits(bytes: &[u8]) -> bool
    ensures { result ≡ list_all is_hex bytes.now }
{
    let mut all = true;
    for byte in bytes {
        all = all & is_digit(*byte);
    }
    all
}

/// The place of the first byte that is no hex digit, or the end.
fn first_other(bytes: &[u8]) -> usize
    ensures { IsDigitCount bytes.now result }
{
    for (i, byte) in bytes.iter().enumerate() {
        if !is_digit(*byte) {
            return i;
        }
    }
    bytes.len()
}

/// How many hex digits stand at the front of the bytes. Mostly there are digits alone up to the byte `end`, and then
/// none is looked at by itself.
fn digits_in(end: u8, bytes: &[u8]) -> usize
    ensures { IsDigitCount bytes.now result }
{
    if let Some(at) = memchr(end, bytes) {
        if !is_digit(end) && are_digits(&bytes[..at]) {
            return at;
        }
    }
    first_other(bytes)
}

/// Writes the bytes that pairs of hex digits spell over a slice that has room for them.
fn read_pairs(out: &mut [u8], digits: &[u8])
    requires size { length digits.now ≡ 2 * length out.old }
    requires all { list_all is_hex digits.now ≡ true }
    ensures { out.new ≡ bytes_of digits.now }
{
    let mut rest = digits;
    let mut at = 0;
    while let [high, low, more @ ..] = rest {
        out[at] = value_of(*high) * 16 + value_of(*low);
        at += 1;
        rest = more;
    }
}

/// The bytes that pairs of hex digits spell.
fn bytes_of(alloc: Global, digits: &[u8]) -> Result<Vec<u8>, NoMemory>
    requires even { length digits.now % 2 ≡ 0 }
    requires all { list_all is_hex digits.now ≡ true }
    ensures { IfOk result (λ bytes. bytes.items ≡ bytes_of digits.now) }
{
    let mut bytes = vec![in alloc; 0u8; digits.len() / 2]?;
    read_pairs(bytes.as_mut_slice(), digits);
    Ok(bytes)
}

/// Pairs of hex digits, and the byte that ends them.
fn pairs_of(alloc: Global, end: u8, bytes: &[u8]) -> Result<(Vec<u8>, &[u8]), Stop>
    ensures { Gives (λ x. (x.0.items, x.1.now)) result (pairs_at end bytes.now) }
{
    let (digits, rest) = bytes.split_at(digits_in(end, bytes));
    let [c, after @ ..] = rest else {
        return Err(Stop::Left(0));
    };
    if *c != end || digits.len() % 2 != 0 {
        return Err(Stop::Left(rest.len()));
    }
    Ok((bytes_of(alloc, digits)?, after))
}

/// The text behind the byte `end` at its front.
pub fn end_of(end: u8, bytes: &[u8]) -> Result<&[u8], Stop>
    ensures { Gives (λ x. ([], x.now)) result (end_at end bytes.now) }
{
    match bytes {
        [] => Err(Stop::Left(0)),
        [c, rest @ ..] => {
            if *c == end {
                Ok(rest)
            } else {
                Err(Stop::Left(bytes.len()))
            }
        }
    }
}

/// Bytes at the front of a text, as pairs of lower-case hex digits or `-` for none, and the text behind the byte `end`
/// that ends them. It stops at the first byte at which no such spelling goes on.
pub fn hex_of(alloc: Global, end: u8, bytes: &[u8]) -> Result<(Vec<u8>, &[u8]), Stop>
    ensures { Gives (λ x. (x.0.items, x.1.now)) result (hex_at end bytes.now) }
{
    match bytes {
        [] => Err(Stop::Left(0)),
        [b'-'] => Err(Stop::Left(0)),
        [b'-', d, rest @ ..] => {
            if *d == end {
                Ok((Vec::new(alloc), rest))
            } else {
                Err(Stop::Left(bytes.len() - 1))
            }
        }
        [c, ..] => {
            if is_digit(*c) {
                pairs_of(alloc, end, bytes)
            } else {
                Err(Stop::Left(bytes.len()))
            }
        }
    }
}

/// The two hex digits of each byte, in order.
static PAIRS: [u8; 512] = *b"000102030405060708090a0b0c0d0e0f101112131415161718191a1b1c1d1e1f\
    202122232425262728292a2b2c2d2e2f303132333435363738393a3b3c3d3e3f\
    404142434445464748494a4b4c4d4e4f505152535455565758595a5b5c5d5e5f\
    606162636465666768696a6b6c6d6e6f707172737475767778797a7b7c7d7e7f\
    808182838485868788898a8b8c8d8e8f909192939495969798999a9b9c9d9e9f\
    a0a1a2a3a4a5a6a7a8a9aaabacadaeafb0b1b2b3b4b5b6b7b8b9babbbcbdbebf\
    c0c1c2c3c4c5c6c7c8c9cacbcccdcecfd0d1d2d3d4d5d6d7d8d9dadbdcdddedf\
    e0e1e2e3e4e5e6e7e8e9eaebecedeeeff0f1f2f3f4f5f6f7f8f9fafbfcfdfeff";

/// The two hex digits of a byte.
#[inline]
fn pair_of(byte: u8) -> (u8, u8)
    ensures high { result.0 ≡ hex_char (byte / 16) }
    ensures low { result.1 ≡ hex_char (byte % 16) }
{
    let at = 2 * byte as usize;
    (PAIRS[at], PAIRS[at + 1])
}

/// Writes the pairs of bytes over a slice that has room for them.
fn write_pairs(out: &mut [u8], bytes: &[u8])
    requires { length out.old ≡ 2 * length bytes.now }
    ensures { out.new ≡ pairs bytes.now }
{
    for (i, byte) in bytes.iter().enumerate() {
        let (high, low) = pair_of(*byte);
        out[2 * i] = high;
        out[2 * i + 1] = low;
    }
}

/// Puts the one spelling of bytes at the end of a text: pairs of lower-case hex digits, `-` for none, and the byte `end`
/// behind them. Where memory for the text's growth is refused, the text is as before.
pub fn put_hex(out: &mut Vec<u8>, end: u8, bytes: &[u8]) -> Result<(), NoMemory>
    ensures { Puts out.old.items out.new.items (hex end bytes.now) result }
{
    match bytes {
        [] => {
            out.extend_from_slice(&[b'-', end])?;
        }
        [_, ..] => {
            let start = out.len();
            let Some(whole) = start.checked_add(2 * bytes.len() + 1) else {
                return Err(NoMemory);
            };
            out.resize(whole, end)?;
            write_pairs(&mut out[start..whole - 1], bytes);
        }
    }
    Ok(())
}
