ghost use Rattle.std.specs.Prelude.{◌≡◌, ◌++◌, IfOk, OnOk};
ghost use Rattle.std.specs.Int.{w32, w64};
ghost use Rattle.dl_codec.specs.Fields.{field};
ghost use Rattle.dl_fields.specs.Fields.{counted_field, IsCounted};
ghost use Rattle.dl_fields.specs.Codes.{code_byte};
ghost use Rattle.dl_msg.specs.Kinds.{resource_code};
ghost use Rattle.dl_fields.specs.Flags.{flag_byte};
ghost use Rattle.dl_msg.specs.Messages.{reply_bytes, IsReply, msg_rest, msg_bytes, IsMsg};

use crate::kind::MsgKind;
use crate::meta_reply::MetaReply;
use crate::msg::Msg;
use dl_codec::write::{put_u8, put_u32, put_u64};
use dl_fields::code::Code;
use dl_fields::flag::put_flag;
use dl_fields::write::put_run_u32;
use dl_tree_msg::answer::put_answer;
use dl_tree_msg::request::put_request;
use dl_types::memory::NoMemory;
use std::alloc::Global;

/// Adds a ledger and an entry.
fn put_place(alloc: Global, out: &mut Vec<u8>, ledger: u64, entry: u64) -> Result<(), NoMemory>
    ensures { OnOk result (out.new.items ≡ out.old.items ++ (field w64 ledger ++ field w64 entry)) }
{
    put_u64(alloc, out, ledger)?;
    put_u64(alloc, out, entry)
}

/// Adds a tag, a ledger and an entry.
fn put_tagged(
    alloc: Global,
    out: &mut Vec<u8>,
    tag: u32,
    ledger: u64,
    entry: u64,
) -> Result<(), NoMemory>
    ensures { OnOk result (out.new.items ≡ out.old.items ++ (field w32 tag ++ (field w64 ledger
        ++ field w64 entry))) }
{
    put_u32(alloc, out, tag)?;
    put_place(alloc, out, ledger, entry)
}

/// Adds a ledger, an entry, a confirmed count and the bytes of the entry.
fn put_entry(
    alloc: Global,
    out: &mut Vec<u8>,
    ledger: u64,
    entry: u64,
    count: u64,
    bytes: &[u8],
) -> Result<(), NoMemory>
    requires { IsCounted w32 bytes.now }
    ensures { OnOk result (out.new.items ≡ out.old.items ++ (field w64 ledger ++ (field w64 entry
        ++ (field w64 count ++ counted_field w32 bytes.now)))) }
{
    put_place(alloc, out, ledger, entry)?;
    put_u64(alloc, out, count)?;
    put_run_u32(alloc, out, bytes)
}

/// Adds a tag, a ledger, a flag and a confirmed count.
fn put_lac(
    alloc: Global,
    out: &mut Vec<u8>,
    tag: u32,
    ledger: u64,
    fenced: bool,
    count: u64,
) -> Result<(), NoMemory>
    ensures { OnOk result (out.new.items ≡ out.old.items ++ (field w32 tag ++ (field w64 ledger
        ++ (flag_byte fenced ++ field w64 count)))) }
{
    put_u32(alloc, out, tag)?;
    put_u64(alloc, out, ledger)?;
    put_flag(alloc, out, fenced)?;
    put_u64(alloc, out, count)
}

/// Adds the numbers of a session and of its request.
fn put_asker(alloc: Global, out: &mut Vec<u8>, session: u64, number: u32) -> Result<(), NoMemory>
    ensures { OnOk result (out.new.items
        ≡ out.old.items ++ (field w64 session ++ field w32 number)) }
{
    put_u64(alloc, out, session)?;
    put_u32(alloc, out, number)
}

/// Adds a reply to a request.
fn put_reply(alloc: Global, out: &mut Vec<u8>, reply: &MetaReply) -> Result<(), NoMemory>
    requires { IsReply reply.now }
    ensures { OnOk result (out.new.items ≡ out.old.items ++ reply_bytes reply.now) }
{
    match reply {
        MetaReply::Expired => put_flag(alloc, out, false),
        MetaReply::Answer(answer) => {
            put_flag(alloc, out, true)?;
            put_answer(alloc, out, answer)
        }
    }
}

/// Adds a message behind its kind.
fn put_rest(alloc: Global, out: &mut Vec<u8>, msg: &Msg) -> Result<(), NoMemory>
    requires { IsMsg msg.now }
    ensures { OnOk result (out.new.items ≡ out.old.items ++ msg_rest msg.now) }
{
    match msg {
        Msg::Add {
            ledger,
            entry,
            count,
            bytes,
        } => put_entry(alloc, out, *ledger, *entry, *count, bytes.as_slice()),
        Msg::Copy {
            tag,
            ledger,
            entry,
            count,
            bytes,
        } => {
            put_u32(alloc, out, *tag)?;
            put_entry(alloc, out, *ledger, *entry, *count, bytes.as_slice())
        }
        Msg::AskLac { tag, ledger, fence } => {
            put_u32(alloc, out, *tag)?;
            put_u64(alloc, out, *ledger)?;
            put_flag(alloc, out, *fence)
        }
        Msg::AskEntry { tag, ledger, entry } => put_tagged(alloc, out, *tag, *ledger, *entry),
        Msg::AddOk { ledger, entry } => put_place(alloc, out, *ledger, *entry),
        Msg::AddFenced { ledger, entry } => put_place(alloc, out, *ledger, *entry),
        Msg::Full {
            what,
            ledger,
            entry,
        } => {
            put_u8(alloc, out, what.code())?;
            put_place(alloc, out, *ledger, *entry)
        }
        Msg::CopyOk { tag, ledger, entry } => put_tagged(alloc, out, *tag, *ledger, *entry),
        Msg::LacIs {
            tag,
            ledger,
            fenced,
            count,
        } => put_lac(alloc, out, *tag, *ledger, *fenced, *count),
        Msg::EntryIs {
            tag,
            ledger,
            entry,
            bytes,
        } => {
            put_tagged(alloc, out, *tag, *ledger, *entry)?;
            put_run_u32(alloc, out, bytes.as_slice())
        }
        Msg::NoEntry {
            tag,
            ledger,
            entry,
            fenced,
        } => {
            put_tagged(alloc, out, *tag, *ledger, *entry)?;
            put_flag(alloc, out, *fenced)
        }
        Msg::MetaAsk {
            session,
            number,
            op,
        } => {
            put_asker(alloc, out, *session, *number)?;
            put_request(alloc, out, op)
        }
        Msg::MetaReply {
            session,
            number,
            reply,
        } => {
            put_asker(alloc, out, *session, *number)?;
            put_reply(alloc, out, reply)
        }
    }
}

/// The bytes of a message: its one spelling.
pub fn encode(alloc: Global, msg: &Msg) -> Result<Vec<u8>, NoMemory>
    requires { IsMsg msg.now }
    ensures { IfOk result (λ v. v.items ≡ msg_bytes msg.now) }
{
    let mut out = Vec::new(alloc);
    let kind = MsgKind::of(msg);
    put_u8(alloc, &mut out, kind.code())?;
    put_rest(alloc, &mut out, msg)?;
    Ok(out)
}
