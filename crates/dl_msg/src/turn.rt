use crate::letters::Letters;
use dl_types::meta_op::MetaOp;
use dl_types::refusal::Refusal;

/// What a task does next.
#[derive(Debug, Drop)]
pub enum Turn<A> {
    /// It waits: what was heard isn't needed, or doesn't complete its stage.
    Wait,
    /// It asks the metadata node for this.
    Ask(MetaOp),
    /// It tells bookies these messages.
    Tell(Letters),
    /// It is done, with this result.
    Done(A),
    /// It is refused.
    Refused(Refusal),
}
