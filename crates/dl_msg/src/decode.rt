ghost use Rattle.std.specs.Prelude.{◌≡◌, Ok, IfOk, IfErr};
ghost use Rattle.dl_fields.specs.Readers.{Gives, Reads, whole_from};
ghost use Rattle.dl_msg.specs.declared.msg.Msg.{Msg};
ghost use Rattle.dl_msg.specs.Messages.{msg_bytes, IsMsg};
ghost use Rattle.dl_msg.specs.Reading.{add_from, copy_from, ask_lac_from, place_from, tagged_place_from, full_from};
ghost use Rattle.dl_msg.specs.Reading.{lac_is_from, entry_is_from, no_entry_from, meta_ask_from, reply_rest_from};
ghost use Rattle.dl_msg.specs.Reading.{reply_from, meta_reply_from, msg_rest_from, msg_from, fault_at, IsOrNoMemory};
ghost use Rattle.dl_msg.specs.Reading.{Refuses};

use crate::fault::MsgFault;
use crate::kind::MsgKind;
use crate::meta_reply::MetaReply;
use crate::msg::Msg;
use crate::resource::Resource;
use bytes::Bytes;
use dl_fields::code::read_code;
use dl_fields::fault::Fault;
use dl_fields::flag::read_flag;
use dl_fields::number::{read_u32, read_u64};
use dl_fields::run::read_run_u32;
use dl_fields::stop::Stop;
use dl_tree_msg::answer::read_answer;
use dl_tree_msg::request::read_request;
use dl_tree_msg::rule::PathRule;
use std::alloc::Global;

/// An addition behind its kind.
fn read_add(alloc: Global, bytes: &[u8]) -> Result<(Msg, &[u8]), Stop>
    ensures { Gives (λ x. (x.0, x.1.now)) result (add_from bytes.now) }
{
    let (ledger, rest) = read_u64(bytes)?;
    let (entry, rest) = read_u64(rest)?;
    let (count, rest) = read_u64(rest)?;
    let (run, rest) = read_run_u32(rest)?;
    let bytes = Bytes::copy_from_slice(alloc, run)?;
    Ok((
        Msg::Add {
            ledger,
            entry,
            count,
            bytes,
        },
        rest,
    ))
}

/// A copy behind its kind.
fn read_copy(alloc: Global, bytes: &[u8]) -> Result<(Msg, &[u8]), Stop>
    ensures { Gives (λ x. (x.0, x.1.now)) result (copy_from bytes.now) }
{
    let (tag, rest) = read_u32(bytes)?;
    let (ledger, rest) = read_u64(rest)?;
    let (entry, rest) = read_u64(rest)?;
    let (count, rest) = read_u64(rest)?;
    let (run, rest) = read_run_u32(rest)?;
    let bytes = Bytes::copy_from_slice(alloc, run)?;
    Ok((
        Msg::Copy {
            tag,
            ledger,
            entry,
            count,
            bytes,
        },
        rest,
    ))
}

/// A question for the confirmed count behind its kind.
fn read_ask_lac(bytes: &[u8]) -> Result<(Msg, &[u8]), Fault>
    ensures { Reads (λ x. (x.0, x.1.now)) result (ask_lac_from bytes.now) }
{
    let (tag, rest) = read_u32(bytes)?;
    let (ledger, rest) = read_u64(rest)?;
    let (fence, rest) = read_flag(rest)?;
    Ok((Msg::AskLac { tag, ledger, fence }, rest))
}

/// A ledger and an entry.
fn read_place(bytes: &[u8]) -> Result<((u64, u64), &[u8]), Fault>
    ensures { Reads (λ x. (x.0, x.1.now)) result (place_from bytes.now) }
{
    let (ledger, rest) = read_u64(bytes)?;
    let (entry, rest) = read_u64(rest)?;
    Ok(((ledger, entry), rest))
}

/// A tag, a ledger and an entry.
fn read_tagged(bytes: &[u8]) -> Result<((u32, (u64, u64)), &[u8]), Fault>
    ensures { Reads (λ x. (x.0, x.1.now)) result (tagged_place_from bytes.now) }
{
    let (tag, rest) = read_u32(bytes)?;
    let (place, rest) = read_place(rest)?;
    Ok(((tag, place), rest))
}

/// A want of room behind its kind.
fn read_full(bytes: &[u8]) -> Result<(Msg, &[u8]), Fault>
    ensures { Reads (λ x. (x.0, x.1.now)) result (full_from bytes.now) }
{
    let (what, rest) = read_code(&Resource::ALL, bytes)?;
    let ((ledger, entry), rest) = read_place(rest)?;
    Ok((
        Msg::Full {
            what,
            ledger,
            entry,
        },
        rest,
    ))
}

/// A confirmed count behind its kind.
fn read_lac_is(bytes: &[u8]) -> Result<(Msg, &[u8]), Fault>
    ensures { Reads (λ x. (x.0, x.1.now)) result (lac_is_from bytes.now) }
{
    let (tag, rest) = read_u32(bytes)?;
    let (ledger, rest) = read_u64(rest)?;
    let (fenced, rest) = read_flag(rest)?;
    let (count, rest) = read_u64(rest)?;
    Ok((
        Msg::LacIs {
            tag,
            ledger,
            fenced,
            count,
        },
        rest,
    ))
}

/// An entry behind its kind.
fn read_entry_is(alloc: Global, bytes: &[u8]) -> Result<(Msg, &[u8]), Stop>
    ensures { Gives (λ x. (x.0, x.1.now)) result (entry_is_from bytes.now) }
{
    let (tag, rest) = read_u32(bytes)?;
    let (ledger, rest) = read_u64(rest)?;
    let (entry, rest) = read_u64(rest)?;
    let (run, rest) = read_run_u32(rest)?;
    let bytes = Bytes::copy_from_slice(alloc, run)?;
    Ok((
        Msg::EntryIs {
            tag,
            ledger,
            entry,
            bytes,
        },
        rest,
    ))
}

/// A denial of an entry behind its kind.
fn read_no_entry(bytes: &[u8]) -> Result<(Msg, &[u8]), Fault>
    ensures { Reads (λ x. (x.0, x.1.now)) result (no_entry_from bytes.now) }
{
    let (tag, rest) = read_u32(bytes)?;
    let (ledger, rest) = read_u64(rest)?;
    let (entry, rest) = read_u64(rest)?;
    let (fenced, rest) = read_flag(rest)?;
    Ok((
        Msg::NoEntry {
            tag,
            ledger,
            entry,
            fenced,
        },
        rest,
    ))
}

/// A request of a session behind its kind.
fn read_meta_ask(alloc: Global, bytes: &[u8]) -> Result<(Msg, &[u8]), Stop>
    ensures { Gives (λ x. (x.0, x.1.now)) result (meta_ask_from bytes.now) }
{
    let (session, rest) = read_u64(bytes)?;
    let (number, rest) = read_u32(rest)?;
    let (op, rest) = read_request(alloc, PathRule::All, rest)?;
    Ok((
        Msg::MetaAsk {
            session,
            number,
            op,
        },
        rest,
    ))
}

/// A reply behind the flag that says whether the request was run.
fn read_reply_rest(alloc: Global, run: bool, bytes: &[u8]) -> Result<(MetaReply, &[u8]), Stop>
    ensures { Gives (λ x. (x.0, x.1.now)) result (reply_rest_from run bytes.now) }
{
    if run {
        let (answer, rest) = read_answer(alloc, bytes)?;
        Ok((MetaReply::Answer(answer), rest))
    } else {
        Ok((MetaReply::Expired, bytes))
    }
}

/// A reply to a request.
fn read_reply(alloc: Global, bytes: &[u8]) -> Result<(MetaReply, &[u8]), Stop>
    ensures { Gives (λ x. (x.0, x.1.now)) result (reply_from bytes.now) }
{
    let (run, rest) = read_flag(bytes)?;
    read_reply_rest(alloc, run, rest)
}

/// A reply to a session behind its kind.
fn read_meta_reply(alloc: Global, bytes: &[u8]) -> Result<(Msg, &[u8]), Stop>
    ensures { Gives (λ x. (x.0, x.1.now)) result (meta_reply_from bytes.now) }
{
    let (session, rest) = read_u64(bytes)?;
    let (number, rest) = read_u32(rest)?;
    let (reply, rest) = read_reply(alloc, rest)?;
    Ok((
        Msg::MetaReply {
            session,
            number,
            reply,
        },
        rest,
    ))
}

/// A message behind its kind.
fn read_rest(alloc: Global, kind: MsgKind, bytes: &[u8]) -> Result<(Msg, &[u8]), Stop>
    ensures { Gives (λ x. (x.0, x.1.now)) result (msg_rest_from kind bytes.now) }
{
    match kind {
        MsgKind::Add => read_add(alloc, bytes),
        MsgKind::Copy => read_copy(alloc, bytes),
        MsgKind::AskLac => Ok(read_ask_lac(bytes)?),
        MsgKind::AskEntry => {
            let ((tag, (ledger, entry)), rest) = read_tagged(bytes)?;
            Ok((Msg::AskEntry { tag, ledger, entry }, rest))
        }
        MsgKind::AddOk => {
            let ((ledger, entry), rest) = read_place(bytes)?;
            Ok((Msg::AddOk { ledger, entry }, rest))
        }
        MsgKind::AddFenced => {
            let ((ledger, entry), rest) = read_place(bytes)?;
            Ok((Msg::AddFenced { ledger, entry }, rest))
        }
        MsgKind::Full => Ok(read_full(bytes)?),
        MsgKind::CopyOk => {
            let ((tag, (ledger, entry)), rest) = read_tagged(bytes)?;
            Ok((Msg::CopyOk { tag, ledger, entry }, rest))
        }
        MsgKind::LacIs => Ok(read_lac_is(bytes)?),
        MsgKind::EntryIs => read_entry_is(alloc, bytes),
        MsgKind::NoEntry => Ok(read_no_entry(bytes)?),
        MsgKind::MetaAsk => read_meta_ask(alloc, bytes),
        MsgKind::MetaReply => read_meta_reply(alloc, bytes),
    }
}

/// A message.
fn read_msg(alloc: Global, bytes: &[u8]) -> Result<(Msg, &[u8]), Stop>
    ensures { Gives (λ x. (x.0, x.1.now)) result (msg_from bytes.now) }
{
    let (kind, rest) = read_code(&MsgKind::ALL, bytes)?;
    read_rest(alloc, kind, rest)
}

/// A message that is all of the bytes.
fn read_whole(alloc: Global, bytes: &[u8]) -> Result<Msg, Stop>
    ensures { Gives (λ x. x) result (whole_from msg_from bytes.now) }
{
    let (msg, rest) = read_msg(alloc, bytes)?;
    if rest.is_empty() {
        Ok(msg)
    } else {
        Err(Stop::Fault(Fault::Long(rest.len())))
    }
}

/// A fault with its place among so many bytes.
fn fault_at(size: usize, fault: Fault) -> MsgFault
    ensures { result ≡ fault_at size fault }
{
    match fault {
        Fault::Short(left) => MsgFault::Short {
            at: size.saturating_sub(left),
        },
        Fault::Bad(left) => MsgFault::BadKind {
            at: size.saturating_sub(left),
        },
        Fault::Long(left) => MsgFault::Long {
            at: size.saturating_sub(left),
        },
    }
}

/// The message that the bytes spell. A fault is the first one in the order of the bytes, with the place of its first
/// byte; no bytes with a fault spell a message.
pub fn decode(alloc: Global, bytes: &[u8]) -> Result<Msg, MsgFault>
    // What is read is a message, and the bytes are its one spelling.
    ensures found { IfOk result (λ m. IsMsg m × (bytes.now ≡ msg_bytes m)) }
    // What spells a message is read, unless memory runs out.
    ensures only { (m : Msg) → IsMsg m → bytes.now ≡ msg_bytes m → IsOrNoMemory (Ok m) result }
    // A fault is the first in the order of the bytes, and then they spell no message.
    ensures refused { IfErr result (Refuses bytes.now) }
{
    match read_whole(alloc, bytes) {
        Ok(msg) => Ok(msg),
        Err(Stop::NoMemory) => Err(MsgFault::NoMemory),
        Err(Stop::Fault(fault)) => Err(fault_at(bytes.len(), fault)),
    }
}
