ghost use Rattle.std.specs.Prelude.{◌≡◌};
ghost use Rattle.dl_msg.specs.Kinds.{msg_code, resource_code};
ghost use Rattle.dl_msg.specs.Messages.{msg_kind};

use crate::msg::Msg;
use crate::resource::Resource;
use dl_fields::code::Code;

/// The kinds of messages.
#[derive(Clone, Copy, Debug, PartialEq, Eq)]
pub(crate) enum MsgKind {
    Add,
    Copy,
    AskLac,
    AskEntry,
    AddOk,
    AddFenced,
    Full,
    CopyOk,
    LacIs,
    EntryIs,
    NoEntry,
    MetaAsk,
    MetaReply,
}

impl MsgKind {
    /// All kinds of messages.
    pub(crate) const ALL: [MsgKind; 13] = [
        MsgKind::Add,
        MsgKind::Copy,
        MsgKind::AskLac,
        MsgKind::AskEntry,
        MsgKind::AddOk,
        MsgKind::AddFenced,
        MsgKind::Full,
        MsgKind::CopyOk,
        MsgKind::LacIs,
        MsgKind::EntryIs,
        MsgKind::NoEntry,
        MsgKind::MetaAsk,
        MsgKind::MetaReply,
    ];

    /// The kind of a message.
    pub(crate) fn of(msg: &Msg) -> MsgKind
        ensures { result ≡ msg_kind msg.now }
    {
        match msg {
            Msg::Add { .. } => MsgKind::Add,
            Msg::Copy { .. } => MsgKind::Copy,
            Msg::AskLac { .. } => MsgKind::AskLac,
            Msg::AskEntry { .. } => MsgKind::AskEntry,
            Msg::AddOk { .. } => MsgKind::AddOk,
            Msg::AddFenced { .. } => MsgKind::AddFenced,
            Msg::Full { .. } => MsgKind::Full,
            Msg::CopyOk { .. } => MsgKind::CopyOk,
            Msg::LacIs { .. } => MsgKind::LacIs,
            Msg::EntryIs { .. } => MsgKind::EntryIs,
            Msg::NoEntry { .. } => MsgKind::NoEntry,
            Msg::MetaAsk { .. } => MsgKind::MetaAsk,
            Msg::MetaReply { .. } => MsgKind::MetaReply,
        }
    }
}

impl Code for MsgKind {
    ghost code = { msg_code };

    fn code(self) -> u8 {
        match self {
            MsgKind::Add => 1,
            MsgKind::Copy => 2,
            MsgKind::AskLac => 3,
            MsgKind::AskEntry => 4,
            MsgKind::AddOk => 5,
            MsgKind::AddFenced => 6,
            MsgKind::Full => 7,
            MsgKind::CopyOk => 8,
            MsgKind::LacIs => 9,
            MsgKind::EntryIs => 10,
            MsgKind::NoEntry => 11,
            MsgKind::MetaAsk => 12,
            MsgKind::MetaReply => 13,
        }
    }
}

impl Resource {
    /// All that a bookie may have too little of.
    pub(crate) const ALL: [Resource; 5] = [
        Resource::Pool,
        Resource::Index,
        Resource::Ledgers,
        Resource::Queue,
        Resource::Journal,
    ];
}

impl Code for Resource {
    ghost code = { resource_code };

    fn code(self) -> u8 {
        match self {
            Resource::Pool => 1,
            Resource::Index => 2,
            Resource::Ledgers => 3,
            Resource::Queue => 4,
            Resource::Journal => 5,
        }
    }
}
