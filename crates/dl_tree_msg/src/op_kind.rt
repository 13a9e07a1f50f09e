ghost use Rattle.std.specs.Prelude.{◌≡◌};
ghost use Rattle.dl_tree_msg.specs.Kinds.{op_code, request_code, mode_field_code};
ghost use Rattle.dl_tree_msg.specs.Requests.{op_kind, request_kind};

use dl_fields::code::Code;
use dl_types::meta_op::MetaOp;
use dl_types::mode::Mode;
use dl_types::one_op::OneOp;

/// The kinds of operations on the metadata tree.
#[derive(Clone, Copy, Debug, PartialEq, Eq)]
pub(crate) enum OpKind {
    Create,
    Delete,
    Set,
    Check,
    Get,
    Children,
}

impl OpKind {
    /// All kinds of operations.
    pub(crate) const ALL: [OpKind; 6] = [
        OpKind::Create,
        OpKind::Delete,
        OpKind::Set,
        OpKind::Check,
        OpKind::Get,
        OpKind::Children,
    ];

    /// The kind of an operation.
    pub(crate) fn of(op: &OneOp) -> OpKind
        ensures { result ≡ op_kind op.now }
    {
        match op {
            OneOp::Create { .. } => OpKind::Create,
            OneOp::Delete { .. } => OpKind::Delete,
            OneOp::Set { .. } => OpKind::Set,
            OneOp::Check { .. } => OpKind::Check,
            OneOp::Get { .. } => OpKind::Get,
            OneOp::Children { .. } => OpKind::Children,
        }
    }
}

impl Code for OpKind {
    ghost code = { op_code };

    fn code(self) -> u8 {
        match self {
            OpKind::Create => 1,
            OpKind::Delete => 2,
            OpKind::Set => 3,
            OpKind::Check => 4,
            OpKind::Get => 5,
            OpKind::Children => 6,
        }
    }
}

/// The kinds of requests: one operation of a kind, or several operations.
#[derive(Clone, Copy, Debug, PartialEq, Eq)]
pub(crate) enum RequestKind {
    One(OpKind),
    Multi,
}

impl RequestKind {
    /// All kinds of requests.
    pub(crate) const ALL: [RequestKind; 7] = [
        RequestKind::One(OpKind::Create),
        RequestKind::One(OpKind::Delete),
        RequestKind::One(OpKind::Set),
        RequestKind::One(OpKind::Check),
        RequestKind::One(OpKind::Get),
        RequestKind::One(OpKind::Children),
        RequestKind::Multi,
    ];

    /// The kind of a request.
    pub(crate) fn of(op: &MetaOp) -> RequestKind
        ensures { result ≡ request_kind op.now }
    {
        match op {
            MetaOp::One(op) => RequestKind::One(OpKind::of(op)),
            MetaOp::Multi { .. } => RequestKind::Multi,
        }
    }
}

impl Code for RequestKind {
    ghost code = { request_code };

    fn code(self) -> u8 {
        match self {
            RequestKind::One(kind) => kind.code(),
            RequestKind::Multi => 7,
        }
    }
}

/// The byte of a mode of creation.
#[derive(Clone, Copy, Debug, PartialEq, Eq)]
pub(crate) struct ModeField {
    pub(crate) mode: Mode,
}

impl ModeField {
    /// All modes.
    pub(crate) const ALL: [ModeField; 4] = [
        ModeField {
            mode: Mode::Lasting,
        },
        ModeField {
            mode: Mode::Ephemeral,
        },
        ModeField {
            mode: Mode::Counted,
        },
        ModeField {
            mode: Mode::EphemeralCounted,
        },
    ];
}

impl Code for ModeField {
    ghost code = { mode_field_code };

    fn code(self) -> u8 {
        match self.mode {
            Mode::Lasting => 0,
            Mode::Ephemeral => 1,
            Mode::Counted => 2,
            Mode::EphemeralCounted => 3,
        }
    }
}
