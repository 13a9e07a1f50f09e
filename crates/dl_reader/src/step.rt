use crate::gathered::Gathered;
use crate::stage::Stage;
use dl_formats::segment_name::SegmentName;
use dl_msg::turn::Turn;
use dl_types::meta_op::MetaOp;
use dl_types::read_row::ReadRows;
use std::collections::VecDeque;

/// Which segments are left behind a step.
#[derive(Drop)]
pub(crate) enum Ahead {
    /// Those that were left.
    Stay,
    /// Those behind the first one.
    Pass,
    /// These.
    Are(VecDeque<SegmentName>),
}

/// What a read does next.
#[derive(Drop)]
pub(crate) enum Step {
    /// It goes to this stage, and answers with this turn.
    Goes {
        stage: Stage,
        turn: Turn<ReadRows>,
        ahead: Ahead,
    },
    /// It drops what it has gathered and begins again by this request; the node of this ledger was gone.
    Begins {
        gone: Option<u64>,
        request: MetaOp,
    },
    /// It ends with what it has gathered.
    Ends,
}

/// What a read does at what it hears.
#[derive(Drop)]
pub(crate) enum After {
    /// It waits where it is.
    Stays,
    /// It takes a step.
    Takes(Step),
    /// It gathers these rows, and takes a step then.
    Gathers(Gathered, Step),
}
