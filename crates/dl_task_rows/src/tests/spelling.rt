//! Requests from text. A request is the line `one` and an operation, or the line `all` and an operation a line. Operations are
//! `create PATH MODE BYTES`, `delete PATH VERSION`, `set PATH VERSION BYTES`, `check PATH VERSION`, `get PATH` and `children PATH`,
//! with bytes in hex, `-` for none, and `any` for no version.

ghost use Rattle.std.specs.Prelude.{IfOk};
ghost use Rattle.dl_tree_msg.specs.declared.rule.PathRule.TheVariants.{AllButConf};
ghost use Rattle.dl_tree_msg.specs.Rules.{allows};
ghost use Rattle.dl_tree_msg.specs.Requests.{IsRequest, IsAllowed};

use dl_text::hex::hex_of;
use dl_tree_msg::request::read_request;
use dl_tree_msg::rule::PathRule;
use dl_types::meta_op::MetaOp;
use std::alloc::{AllocError, Global};
use std::test::Fail;

/// The words of operations, at the places that are their codes.
const KINDS: [&str; 7] = ["", "create", "delete", "set", "check", "get", "children"];

/// The words of modes, at the places that are their codes.
pub const MODES: [&str; 4] = ["lasting", "ephemeral", "counted", "ephemeral-counted"];

/// What stands before the first space, and what stands after it.
pub fn cut(text: &str) -> (&str, &str) {
    text.split_once(' ').unwrap_or((text, ""))
}

/// The number of a word, or 0.
pub fn number_of(word: &str) -> u64 {
    word.parse().unwrap_or(0)
}

/// The place of a word among others, or 0.
fn place_in(words: &[&str], word: &str) -> u8 {
    for (place, other) in words.iter().enumerate() {
        if *other == word {
            return (place % 256) as u8;
        }
    }
    0
}

/// Bytes in hex.
pub fn bytes_of(alloc: Global, hex: &str) -> Result<Vec<u8>, Fail> {
    let mut text = String::from_str(alloc, hex)?;
    text.push('\n')?;
    let (bytes, _rest) = hex_of(alloc, b'\n', text.as_bytes())?;
    Ok(bytes)
}

/// Adds the bytes of a node, in hex. They are few.
fn put_body(alloc: Global, out: &mut Vec<u8>, hex: &str) -> Result<(), Fail> {
    let bytes = bytes_of(alloc, hex)?;
    out.extend_from_slice(&[0, 0, 0, (bytes.len() % 256) as u8])?;
    out.extend_from_slice(&bytes)?;
    Ok(())
}

/// Adds a version.
fn put_version(out: &mut Vec<u8>, word: &str) -> Result<(), AllocError> {
    if word == "any" {
        return out.extend_from_slice(&[0]);
    }
    out.extend_from_slice(&[1])?;
    out.extend_from_slice(&number_of(word).to_be_bytes())
}

/// Adds what an operation has behind its path.
fn put_rest(
    alloc: Global,
    out: &mut Vec<u8>,
    verb: &str,
    word: &str,
    hex: &str,
) -> Result<(), Fail> {
    if verb == "create" {
        return put_body(alloc, out, hex);
    }
    if verb == "set" {
        put_body(alloc, out, hex)?;
    }
    if verb == "set" || verb == "delete" || verb == "check" {
        put_version(out, word)?;
    }
    Ok(())
}

/// Adds an operation.
fn put_op(alloc: Global, out: &mut Vec<u8>, text: &str) -> Result<(), Fail> {
    let (verb, rest) = cut(text);
    let (path, rest) = cut(rest);
    let (word, hex) = cut(rest);
    out.extend_from_slice(&[place_in(&KINDS, verb)])?;
    if verb == "create" {
        out.extend_from_slice(&[place_in(&MODES, word)])?;
    }
    // Paths of rows are short.
    out.extend_from_slice(&[0, (path.len() % 256) as u8])?;
    out.extend_from_slice(path.as_bytes())?;
    put_rest(alloc, out, verb, word, hex)
}

/// The spelling of a request.
fn spelling_of(alloc: Global, text: &str) -> Result<Vec<u8>, Fail> {
    let (form, ops) = text.split_once('\n').unwrap_or((text, ""));
    let mut bytes = Vec::new(alloc);
    if form == "all" {
        bytes.extend_from_slice(&[7, 0, (ops.lines().count() % 256) as u8])?;
    }
    for op in ops.lines() {
        put_op(alloc, &mut bytes, op)?;
    }
    Ok(bytes)
}

/// The request of a text.
pub fn request_of(alloc: Global, text: &str) -> Result<MetaOp, Fail>
    ensures valid { IfOk result IsRequest }
    ensures allowed { IfOk result (IsAllowed (allows AllButConf)) }
{
    let bytes = spelling_of(alloc, text)?;
    let (op, _rest) = read_request(alloc, PathRule::AllButConf, &bytes)?;
    Ok(op)
}
