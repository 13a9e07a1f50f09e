ghost use Rattle.std.specs.Prelude.{◌≡◌};
ghost use Rattle.dl_tree_msg.specs.Kinds.{answer_code, outcome_code, why_code};
ghost use Rattle.dl_tree_msg.specs.Answers.{answer_kind, outcome_kind, why_kind};

use dl_fields::code::Code;
use dl_types::meta_answer::MetaAnswer;
use dl_types::one_answer::OneAnswer;
use dl_types::why::Why;

/// The kinds of answers to one operation.
#[derive(Clone, Copy, Debug, PartialEq, Eq)]
pub(crate) enum AnswerKind {
    Made,
    Done,
    Version,
    Bytes,
    Names,
}

impl AnswerKind {
    /// All kinds of answers to one operation.
    pub(crate) const ALL: [AnswerKind; 5] = [
        AnswerKind::Made,
        AnswerKind::Done,
        AnswerKind::Version,
        AnswerKind::Bytes,
        AnswerKind::Names,
    ];

    /// The kind of an answer.
    pub(crate) fn of(answer: &OneAnswer) -> AnswerKind
        ensures { result ≡ answer_kind answer.now }
    {
        match answer {
            OneAnswer::Made(_) => AnswerKind::Made,
            OneAnswer::Done => AnswerKind::Done,
            OneAnswer::Version(_) => AnswerKind::Version,
            OneAnswer::Bytes { .. } => AnswerKind::Bytes,
            OneAnswer::Names(_) => AnswerKind::Names,
        }
    }
}

impl Code for AnswerKind {
    ghost code = { answer_code };

    fn code(self) -> u8 {
        match self {
            AnswerKind::Made => 1,
            AnswerKind::Done => 2,
            AnswerKind::Version => 3,
            AnswerKind::Bytes => 4,
            AnswerKind::Names => 5,
        }
    }
}

/// The kinds of answers to a request: the answer of a kind to one operation, answers to several, or a failure.
#[derive(Clone, Copy, Debug, PartialEq, Eq)]
pub(crate) enum OutcomeKind {
    One(AnswerKind),
    Many,
    Failed,
}

impl OutcomeKind {
    /// All kinds of answers to a request.
    pub(crate) const ALL: [OutcomeKind; 7] = [
        OutcomeKind::One(AnswerKind::Made),
        OutcomeKind::One(AnswerKind::Done),
        OutcomeKind::One(AnswerKind::Version),
        OutcomeKind::One(AnswerKind::Bytes),
        OutcomeKind::One(AnswerKind::Names),
        OutcomeKind::Many,
        OutcomeKind::Failed,
    ];

    /// The kind of an answer to a request.
    pub(crate) fn of(answer: &MetaAnswer) -> OutcomeKind
        ensures { result ≡ outcome_kind answer.now }
    {
        match answer {
            MetaAnswer::One(answer) => OutcomeKind::One(AnswerKind::of(answer)),
            MetaAnswer::Many(_) => OutcomeKind::Many,
            MetaAnswer::Failed { .. } => OutcomeKind::Failed,
        }
    }
}

impl Code for OutcomeKind {
    ghost code = { outcome_code };

    fn code(self) -> u8 {
        match self {
            OutcomeKind::One(kind) => kind.code(),
            OutcomeKind::Many => 6,
            OutcomeKind::Failed => 7,
        }
    }
}

/// The kinds of failures of an operation.
#[derive(Clone, Copy, Debug, PartialEq, Eq)]
pub(crate) enum WhyKind {
    NoNode,
    NodeExists,
    BadVersion,
    NotEmpty,
    EphemeralParent,
    Spent,
}

impl WhyKind {
    /// All kinds of failures.
    pub(crate) const ALL: [WhyKind; 6] = [
        WhyKind::NoNode,
        WhyKind::NodeExists,
        WhyKind::BadVersion,
        WhyKind::NotEmpty,
        WhyKind::EphemeralParent,
        WhyKind::Spent,
    ];

    /// The kind of a failure.
    pub(crate) fn of(why: &Why) -> WhyKind
        ensures { result ≡ why_kind why.now }
    {
        match why {
            Why::NoNode => WhyKind::NoNode,
            Why::NodeExists => WhyKind::NodeExists,
            Why::BadVersion(_) => WhyKind::BadVersion,
            Why::NotEmpty(_) => WhyKind::NotEmpty,
            Why::EphemeralParent => WhyKind::EphemeralParent,
            Why::Spent => WhyKind::Spent,
        }
    }
}

impl Code for WhyKind {
    ghost code = { why_code };

    fn code(self) -> u8 {
        match self {
            WhyKind::NoNode => 1,
            WhyKind::NodeExists => 2,
            WhyKind::BadVersion => 3,
            WhyKind::NotEmpty => 4,
            WhyKind::EphemeralParent => 5,
            WhyKind::Spent => 6,
        }
    }
}
