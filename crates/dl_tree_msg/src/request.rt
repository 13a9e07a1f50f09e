ghost use Rattle.std.specs.Prelude.{◌≡◌, ◌≤◌, ◌++◌, length, IfOk, OnOk};
ghost use Rattle.std.specs.Int.{w16, w32};
ghost use Rattle.dl_fields.specs.Readers.{Gives, Reads};
ghost use Rattle.dl_fields.specs.Fields.{counted_field, IsCounted};
ghost use Rattle.dl_fields.specs.Codes.{code_byte};
ghost use Rattle.dl_fields.specs.Outputs.{Puts};
ghost use Rattle.dl_tree_msg.specs.Kinds.{mode_field_code, mode_field};
ghost use Rattle.dl_tree_msg.specs.Rules.{allows};
ghost use Rattle.dl_tree_msg.specs.Requests.{op_rest, op_bytes, IsNewPath, IsOp, request_rest};
ghost use Rattle.dl_tree_msg.specs.Requests.{request_bytes, IsRequest, IsAllowed};
ghost use Rattle.dl_tree_msg.specs.Sizes.{max_op_rest, max_op, max_request};
ghost use Rattle.dl_tree_msg.specs.RequestReading.{mode_from, new_path_from, allowed_path_from, create_from};
ghost use Rattle.dl_tree_msg.specs.RequestReading.{delete_from, set_from, check_from, get_from, children_from};
ghost use Rattle.dl_tree_msg.specs.RequestReading.{op_rest_from, op_from, op_count_from, ops_from, request_rest_from};
ghost use Rattle.dl_tree_msg.specs.RequestReading.{request_from};

use crate::items::{Item, put_items, size_of_items};
use crate::op_kind::{ModeField, OpKind, RequestKind};
use crate::rule::PathRule;
use crate::version::{put_version, read_version, size_of_version};
use dl_codec::write::{put_u8, put_u16};
use dl_fields::code::{Code, read_code};
use dl_fields::fault::Fault;
use dl_fields::items::{ItemReader, read_items};
use dl_fields::number::read_u16;
use dl_fields::path::{read_path, read_stem};
use dl_fields::run::read_run_u32;
use dl_fields::size::{size_of_run_u16, size_of_run_u32};
use dl_fields::stop::Stop;
use dl_fields::write::{put_run_u16, put_run_u32};
use dl_types::body::Body;
use dl_types::memory::NoMemory;
use dl_types::meta_op::MetaOp;
use dl_types::mode::Mode;
use dl_types::one_op::OneOp;
use dl_types::one_ops::OneOps;
use dl_types::path::Path;
use std::alloc::Global;

/// The mode of a creation, and the bytes behind it.
fn read_mode(bytes: &[u8]) -> Result<(Mode, &[u8]), Fault>
    ensures { Reads (λ x. (x.0, x.1.now)) result (mode_from bytes.now) }
{
    let (field, rest) = read_code(&ModeField::ALL, bytes)?;
    Ok((field.mode, rest))
}

/// The path of a node to be made: with a counted mode it has room for ten digits.
fn read_new_path(mode: Mode, bytes: &[u8]) -> Result<(&[u8], &[u8]), Fault>
    ensures { Reads (λ x. (x.0.now, x.1.now)) result (new_path_from mode bytes.now) }
{
    match mode {
        Mode::Lasting => read_path(bytes),
        Mode::Ephemeral => read_path(bytes),
        Mode::Counted => read_stem(bytes),
        Mode::EphemeralCounted => read_stem(bytes),
    }
}

/// The path of a node to be deleted or set, and the bytes behind it. One that the rule doesn't allow is bad at the first
/// byte of its length.
fn read_allowed_path(rule: PathRule, bytes: &[u8]) -> Result<(&[u8], &[u8]), Fault>
    ensures { Reads (λ x. (x.0.now, x.1.now)) result (allowed_path_from (allows rule) bytes.now) }
{
    let (path, rest) = read_path(bytes)?;
    if rule.allows(path) {
        Ok((path, rest))
    } else {
        Err(Fault::Bad(bytes.len()))
    }
}

/// A creation behind its kind.
fn read_create(alloc: Global, bytes: &[u8]) -> Result<(OneOp, &[u8]), Stop>
    ensures { Gives (λ x. (x.0, x.1.now)) result (create_from bytes.now) }
{
    let (mode, rest) = read_mode(bytes)?;
    let (path, rest) = read_new_path(mode, rest)?;
    let (run, rest) = read_run_u32(rest)?;
    let path = Path::new(alloc, path)?;
    let bytes = Body::new(alloc, run)?;
    Ok((OneOp::Create { path, bytes, mode }, rest))
}

/// A deletion behind its kind.
fn read_delete(alloc: Global, rule: PathRule, bytes: &[u8]) -> Result<(OneOp, &[u8]), Stop>
    ensures { Gives (λ x. (x.0, x.1.now)) result (delete_from (allows rule) bytes.now) }
{
    let (path, rest) = read_allowed_path(rule, bytes)?;
    let (version, rest) = read_version(rest)?;
    let path = Path::new(alloc, path)?;
    Ok((OneOp::Delete { path, version }, rest))
}

/// A set behind its kind.
fn read_set(alloc: Global, rule: PathRule, bytes: &[u8]) -> Result<(OneOp, &[u8]), Stop>
    ensures { Gives (λ x. (x.0, x.1.now)) result (set_from (allows rule) bytes.now) }
{
    let (path, rest) = read_allowed_path(rule, bytes)?;
    let (run, rest) = read_run_u32(rest)?;
    let (version, rest) = read_version(rest)?;
    let path = Path::new(alloc, path)?;
    let bytes = Body::new(alloc, run)?;
    Ok((
        OneOp::Set {
            path,
            bytes,
            version,
        },
        rest,
    ))
}

/// A check behind its kind.
fn read_check(alloc: Global, bytes: &[u8]) -> Result<(OneOp, &[u8]), Stop>
    ensures { Gives (λ x. (x.0, x.1.now)) result (check_from bytes.now) }
{
    let (path, rest) = read_path(bytes)?;
    let (version, rest) = read_version(rest)?;
    let path = Path::new(alloc, path)?;
    Ok((OneOp::Check { path, version }, rest))
}

/// A look at the bytes of a node behind its kind.
fn read_get(alloc: Global, bytes: &[u8]) -> Result<(OneOp, &[u8]), Stop>
    ensures { Gives (λ x. (x.0, x.1.now)) result (get_from bytes.now) }
{
    let (path, rest) = read_path(bytes)?;
    let path = Path::new(alloc, path)?;
    Ok((OneOp::Get { path }, rest))
}

/// A look at the children of a node behind its kind.
fn read_children(alloc: Global, bytes: &[u8]) -> Result<(OneOp, &[u8]), Stop>
    ensures { Gives (λ x. (x.0, x.1.now)) result (children_from bytes.now) }
{
    let (path, rest) = read_path(bytes)?;
    let path = Path::new(alloc, path)?;
    Ok((OneOp::Children { path }, rest))
}

/// An operation behind its kind.
fn read_op_rest(
    alloc: Global,
    rule: PathRule,
    kind: OpKind,
    bytes: &[u8],
) -> Result<(OneOp, &[u8]), Stop>
    ensures { Gives (λ x. (x.0, x.1.now)) result (op_rest_from (allows rule) kind bytes.now) }
{
    match kind {
        OpKind::Create => read_create(alloc, bytes),
        OpKind::Delete => read_delete(alloc, rule, bytes),
        OpKind::Set => read_set(alloc, rule, bytes),
        OpKind::Check => read_check(alloc, bytes),
        OpKind::Get => read_get(alloc, bytes),
        OpKind::Children => read_children(alloc, bytes),
    }
}

/// Operations under a rule of which nodes they may delete and set.
#[derive(Drop)]
struct OpReader {
    rule: PathRule,
}

impl ItemReader for OpReader {
    type Item = OneOp;

    ghost from = { λ reader. op_from (allows reader.rule) };

    fn read_item<'a>(&self, alloc: Global, bytes: &'a [u8]) -> Result<(OneOp, &'a [u8]), Stop> {
        let (kind, rest) = read_code(&OpKind::ALL, bytes)?;
        read_op_rest(alloc, self.rule, kind, rest)
    }
}

/// How many operations follow: at least one.
fn read_op_count(bytes: &[u8]) -> Result<(u16, &[u8]), Fault>
    ensures { Reads (λ x. (x.0, x.1.now)) result (op_count_from bytes.now) }
{
    let (count, rest) = read_u16(bytes)?;
    if count == 0 {
        Err(Fault::Bad(bytes.len()))
    } else {
        Ok((count, rest))
    }
}

/// Operations behind their count.
fn read_ops(alloc: Global, rule: PathRule, bytes: &[u8]) -> Result<(Vec<OneOp>, &[u8]), Stop>
    ensures { Gives (λ x. (x.0.items, x.1.now)) result (ops_from (allows rule) bytes.now) }
{
    let (count, rest) = read_op_count(bytes)?;
    read_items(alloc, &OpReader { rule }, u32::from(count), rest)
}

/// A request behind its kind.
fn read_request_rest(
    alloc: Global,
    rule: PathRule,
    kind: RequestKind,
    bytes: &[u8],
) -> Result<(MetaOp, &[u8]), Stop>
    ensures { Gives (λ x. (x.0, x.1.now)) result (request_rest_from (allows rule) kind bytes.now) }
{
    match kind {
        RequestKind::One(kind) => {
            let (op, rest) = read_op_rest(alloc, rule, kind, bytes)?;
            Ok((MetaOp::One(op), rest))
        }
        RequestKind::Multi => {
            let (items, rest) = read_ops(alloc, rule, bytes)?;
            let ops = OneOps::from_vec(items);
            Ok((MetaOp::Multi { ops }, rest))
        }
    }
}

/// A request.
fn read_kinded_request(alloc: Global, rule: PathRule, bytes: &[u8]) -> Result<(MetaOp, &[u8]), Stop>
    ensures { Gives (λ x. (x.0, x.1.now)) result (request_from (allows rule) bytes.now) }
{
    let (kind, rest) = read_code(&RequestKind::ALL, bytes)?;
    read_request_rest(alloc, rule, kind, rest)
}

/// The request on the metadata tree at the front of the bytes, and the bytes behind it. A fault is the first in the order
/// of the bytes, told by how many bytes are left at it. A deletion or a set of a node that the rule doesn't allow, alone or
/// among several operations, is bad at the first byte of the length of its path.
pub fn read_request(alloc: Global, rule: PathRule, bytes: &[u8]) -> Result<(MetaOp, &[u8]), Stop>
    ensures exact { Gives (λ x. (x.0, x.1.now)) result (request_from (allows rule) bytes.now) }
    // What is read is valid, and the bytes are its one spelling and what is behind it.
    ensures found { IfOk result (λ x. IsRequest x.0 × (bytes.now ≡ request_bytes x.0 ++ x.1.now)) }
    // It deletes and sets no node that the rule doesn't allow.
    ensures allowed { IfOk result (λ x. IsAllowed (allows rule) x.0) }
{
    let (op, rest) = read_kinded_request(alloc, rule, bytes)?;
    Ok((op, rest))
}

/// Adds a creation behind its kind.
fn put_create(
    alloc: Global,
    out: &mut Vec<u8>,
    path: &Path,
    bytes: &Body,
    mode: Mode,
) -> Result<(), NoMemory>
    requires path { IsNewPath mode path.now }
    requires bytes { IsCounted w32 bytes.now }
    ensures { OnOk result (out.new.items ≡ out.old.items
        ++ (code_byte mode_field_code (mode_field mode) ++ (counted_field w16 path.now
        ++ counted_field w32 bytes.now))) }
{
    let field = ModeField { mode };
    put_u8(alloc, out, field.code())?;
    put_run_u16(alloc, out, path.as_slice())?;
    put_run_u32(alloc, out, bytes.as_slice())
}

/// Adds an operation behind its kind.
fn put_op_rest(alloc: Global, out: &mut Vec<u8>, op: &OneOp) -> Result<(), NoMemory>
    requires { IsOp op.now }
    ensures { OnOk result (out.new.items ≡ out.old.items ++ op_rest op.now) }
{
    match op {
        OneOp::Create { path, bytes, mode } => put_create(alloc, out, path, bytes, *mode),
        OneOp::Delete { path, version } => {
            put_run_u16(alloc, out, path.as_slice())?;
            put_version(alloc, out, *version)
        }
        OneOp::Set {
            path,
            bytes,
            version,
        } => {
            put_run_u16(alloc, out, path.as_slice())?;
            put_run_u32(alloc, out, bytes.as_slice())?;
            put_version(alloc, out, *version)
        }
        OneOp::Check { path, version } => {
            put_run_u16(alloc, out, path.as_slice())?;
            put_version(alloc, out, *version)
        }
        OneOp::Get { path } => put_run_u16(alloc, out, path.as_slice()),
        OneOp::Children { path } => put_run_u16(alloc, out, path.as_slice()),
    }
}

/// Adds a request behind its kind.
fn put_request_rest(alloc: Global, out: &mut Vec<u8>, op: &MetaOp) -> Result<(), NoMemory>
    requires { IsRequest op.now }
    ensures { OnOk result (out.new.items ≡ out.old.items ++ request_rest op.now) }
{
    match op {
        MetaOp::One(op) => put_op_rest(alloc, out, op),
        MetaOp::Multi { ops } => {
            let ops = ops.as_slice();
            put_u16(alloc, out, ops.len() as u16)?;
            put_items(alloc, out, ops)
        }
    }
}

/// Adds a request; where memory runs out, a part of it may have been added.
fn put_kinded_request(alloc: Global, out: &mut Vec<u8>, op: &MetaOp) -> Result<(), NoMemory>
    requires { IsRequest op.now }
    ensures { OnOk result (out.new.items ≡ out.old.items ++ request_bytes op.now) }
{
    let kind = RequestKind::of(op);
    put_u8(alloc, out, kind.code())?;
    put_request_rest(alloc, out, op)
}

/// Adds a request on the metadata tree at the end of `out`. Where memory runs out, `out` is as before.
pub fn put_request(alloc: Global, out: &mut Vec<u8>, op: &MetaOp) -> Result<(), NoMemory>
    requires { IsRequest op.now }
    ensures { Puts out.old.items out.new.items (request_bytes op.now) result }
{
    let mut bytes = Vec::new(alloc);
    put_kinded_request(alloc, &mut bytes, op)?;
    out.extend_from_slice(&bytes)?;
    Ok(())
}

/// How many bytes a creation has behind its kind.
#[tactic(auto, using(dl_fields::proofs::SizeLemmas::sizes))]
fn size_of_create(path: &Path, bytes: &Body, mode: Mode) -> u64
    requires path { IsNewPath mode path.now }
    requires bytes { IsCounted w32 bytes.now }
    ensures exact { result ≡ length (code_byte mode_field_code (mode_field mode)
        ++ (counted_field w16 path.now
        ++ counted_field w32 bytes.now)) }
    ensures bound { result ≤ max_op_rest }
{
    size_of_run_u16(path.as_slice()) + size_of_run_u32(bytes.as_slice()) + 1
}

/// How many bytes an operation has behind its kind.
#[tactic(auto, using(dl_fields::proofs::SizeLemmas::sizes))]
fn size_of_op_rest(op: &OneOp) -> u64
    requires { IsOp op.now }
    ensures exact { result ≡ length (op_rest op.now) }
    ensures bound { result ≤ max_op_rest }
{
    match op {
        OneOp::Create { path, bytes, mode } => size_of_create(path, bytes, *mode),
        OneOp::Delete { path, version } => size_of_run_u16(path.as_slice())
            + size_of_version(*version),
        OneOp::Set {
            path,
            bytes,
            version,
        } => size_of_run_u16(path.as_slice())
            + size_of_run_u32(bytes.as_slice())
            + size_of_version(*version),
        OneOp::Check { path, version } => size_of_run_u16(path.as_slice())
            + size_of_version(*version),
        OneOp::Get { path } => size_of_run_u16(path.as_slice()),
        OneOp::Children { path } => size_of_run_u16(path.as_slice()),
    }
}

impl Item for OneOp {
    ghost valid = { IsOp };

    ghost spelling = { op_bytes };

    ghost most = { max_op };

    fn put_item(&self, alloc: Global, out: &mut Vec<u8>) -> Result<(), NoMemory> {
        let kind = OpKind::of(self);
        put_u8(alloc, out, kind.code())?;
        put_op_rest(alloc, out, self)
    }

    #[tactic(auto, using(dl_fields::proofs::SizeLemmas::sizes))]
    fn size_of_item(&self) -> u64 {
        size_of_op_rest(self) + 1
    }
}

/// How many bytes a request on the metadata tree has.
#[tactic(auto, using(dl_fields::proofs::SizeLemmas::sizes))]
pub fn size_of_request(op: &MetaOp) -> u64
    requires { IsRequest op.now }
    ensures exact { result ≡ length (request_bytes op.now) }
    ensures bound { result ≤ max_request }
{
    match op {
        MetaOp::One(op) => op.size_of_item(),
        MetaOp::Multi { ops } => size_of_items(ops.as_slice()) + 3,
    }
}
