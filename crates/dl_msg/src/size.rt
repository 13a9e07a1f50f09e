ghost use Rattle.std.specs.Prelude.{◌≡◌, ◌≤◌, ◌+◌, length};
ghost use Rattle.dl_tree_msg.specs.Sizes.{max_outcome};
ghost use Rattle.dl_msg.specs.Messages.{reply_bytes, IsReply, msg_bytes, IsMsg};

use crate::meta_reply::MetaReply;
use crate::msg::Msg;
use dl_fields::size::size_of_run_u32;
use dl_tree_msg::answer::size_of_answer;
use dl_tree_msg::request::size_of_request;

/// The byte of a kind.
const KIND: u64 = 1;

/// A byte that says yes or no.
const FLAG: u64 = 1;

/// The number of an order or of a request.
const TAG: u64 = 4;

/// Any other number.
const NUMBER: u64 = 8;

/// How many bytes a reply has.
#[tactic(auto, using(dl_fields::proofs::SizeLemmas::sizes))]
fn size_of_reply(reply: &MetaReply) -> u64
    requires { IsReply reply.now }
    ensures exact { result ≡ length (reply_bytes reply.now) }
    ensures bound { result ≤ 1 + max_outcome }
{
    match reply {
        MetaReply::Expired => FLAG,
        MetaReply::Answer(answer) => FLAG + size_of_answer(answer),
    }
}

/// How many bytes a message has. It takes no memory.
#[tactic(auto, using(dl_fields::proofs::SizeLemmas::sizes))]
pub fn size(msg: &Msg) -> u64
    requires { IsMsg msg.now }
    ensures { result ≡ length (msg_bytes msg.now) }
{
    match msg {
        Msg::Add { bytes, .. } => KIND + 3 * NUMBER + size_of_run_u32(bytes.as_slice()),
        Msg::Copy { bytes, .. } => KIND + TAG + 3 * NUMBER + size_of_run_u32(bytes.as_slice()),
        Msg::AskLac { .. } => KIND + TAG + NUMBER + FLAG,
        Msg::AskEntry { .. } => KIND + TAG + 2 * NUMBER,
        Msg::AddOk { .. } => KIND + 2 * NUMBER,
        Msg::AddFenced { .. } => KIND + 2 * NUMBER,
        Msg::Full { .. } => 2 * KIND + 2 * NUMBER,
        Msg::CopyOk { .. } => KIND + TAG + 2 * NUMBER,
        Msg::LacIs { .. } => KIND + TAG + 2 * NUMBER + FLAG,
        Msg::EntryIs { bytes, .. } => KIND + TAG + 2 * NUMBER + size_of_run_u32(bytes.as_slice()),
        Msg::NoEntry { .. } => KIND + TAG + 2 * NUMBER + FLAG,
        Msg::MetaAsk { op, .. } => KIND + NUMBER + TAG + size_of_request(op),
        Msg::MetaReply { reply, .. } => KIND + NUMBER + TAG + size_of_reply(reply),
    }
}
