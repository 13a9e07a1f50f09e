//! Items of the metadata node as frames for its journal: 12 bytes for number and length, the item, and a shut gate.

ghost use Rattle.std.specs.Prelude.{◌≡◌, ℕ, ◌++◌, IfOk};
ghost use Rattle.std.specs.Int.{w8, w64};
ghost use Rattle.dl_codec.specs.Fields.{field};
ghost use Rattle.dl_tree_msg.specs.Requests.{IsRequest};
ghost use Rattle.dl_formats.specs.NodeBytes.{IsConf};
ghost use Rattle.dl_rules_nodes.specs.Items.{Setup, Connect, Expire, Ask, meta_item_bytes, meta_item_length};
ghost use Rattle.dl_meta.specs.Storing.{blank, framed};

use dl_codec::write::{put_u8, put_u32, put_u64};
use dl_formats::conf::Conf;
use dl_journal::layout::HEAD;
use dl_tree_msg::request::{put_request, size_of_request};
use dl_types::memory::NoMemory;
use dl_types::meta_op::MetaOp;
use std::alloc::Global;

/// The kinds of items.
pub(crate) const CONF: u8 = 1;

pub(crate) const CONNECT: u8 = 2;

pub(crate) const EXPIRE: u8 = 3;

pub(crate) const ASK: u8 = 4;

/// The bytes of an item that gives or ends a session: its kind, and the session.
pub(crate) const SESSION_ITEM: u64 = 9;

/// The bytes of a request's item before the request: its kind, the session, and the number.
const BEFORE_REQUEST: u64 = 13;

/// A frame that begins with an item's kind.
fn frame_of_kind(alloc: Global, kind: u8) -> Result<Vec<u8>, NoMemory>
    ensures { IfOk result (λ frame. frame.items ≡ blank ++ field w8 kind) }
{
    let mut frame = Vec::new(alloc);
    frame.extend_from_slice(&[0; HEAD])?;
    put_u8(alloc, &mut frame, kind)?;
    Ok(frame)
}

/// A frame with an item that names a session alone.
fn frame_of_session(alloc: Global, kind: u8, session: u64) -> Result<Vec<u8>, NoMemory>
    ensures { IfOk result (λ frame. frame.items ≡ framed (field w8 kind ++ field w64 session)) }
{
    let mut frame = frame_of_kind(alloc, kind)?;
    put_u64(alloc, &mut frame, session)?;
    frame.push(0)?;
    Ok(frame)
}

/// The frame of the configuration.
#[tactic(auto, unfolding(dl_rules_nodes::specs::Items::meta_item_bytes))]
pub(crate) fn frame_of_conf(alloc: Global, conf: &Conf) -> Result<Vec<u8>, NoMemory>
    requires { IsConf conf.now }
    ensures { IfOk result (λ frame. frame.items ≡ framed (meta_item_bytes (Setup conf.now))) }
{
    let mut frame = frame_of_kind(alloc, CONF)?;
    put_u8(alloc, &mut frame, conf.b)?;
    put_u8(alloc, &mut frame, conf.e)?;
    put_u8(alloc, &mut frame, conf.qw)?;
    put_u8(alloc, &mut frame, conf.qa)?;
    frame.push(0)?;
    Ok(frame)
}

/// The frame of a session that is given.
#[tactic(auto, unfolding(dl_rules_nodes::specs::Items::meta_item_bytes))]
pub(crate) fn frame_of_connect(alloc: Global, session: u64) -> Result<Vec<u8>, NoMemory>
    ensures { IfOk result (λ frame. frame.items ≡ framed (meta_item_bytes (Connect session))) }
{
    frame_of_session(alloc, CONNECT, session)
}

/// The frame of a session that ends.
#[tactic(auto, unfolding(dl_rules_nodes::specs::Items::meta_item_bytes))]
pub(crate) fn frame_of_expire(alloc: Global, session: u64) -> Result<Vec<u8>, NoMemory>
    ensures { IfOk result (λ frame. frame.items ≡ framed (meta_item_bytes (Expire session))) }
{
    frame_of_session(alloc, EXPIRE, session)
}

/// The frame of a request of a session.
#[tactic(auto, unfolding(dl_rules_nodes::specs::Items::meta_item_bytes))]
pub(crate) fn frame_of_ask(
    alloc: Global,
    session: u64,
    number: u32,
    op: &MetaOp,
) -> Result<Vec<u8>, NoMemory>
    requires { IsRequest op.now }
    ensures { IfOk result (λ frame. frame.items
        ≡ framed (meta_item_bytes (Ask session number op.now))) }
{
    let mut frame = frame_of_kind(alloc, ASK)?;
    put_u64(alloc, &mut frame, session)?;
    put_u32(alloc, &mut frame, number)?;
    put_request(alloc, &mut frame, op)?;
    frame.push(0)?;
    Ok(frame)
}

/// How many bytes the item of a request has, whatever its session and its number.
#[tactic(auto, using(dl_fields::proofs::SizeLemmas::sizes), unfolding(dl_rules_nodes::specs::Items::meta_item_bytes))]
pub(crate) fn size_of_ask(op: &MetaOp) -> u64
    requires { IsRequest op.now }
    ensures { (session number : ℕ) → result ≡ meta_item_length (Ask session number op.now) }
{
    size_of_request(op) + BEFORE_REQUEST
}
