use crate::one_answer::OneAnswer;
use crate::one_answers::OneAnswers;
use crate::why::Why;

/// The answer to a request on the metadata tree.
#[derive(Clone, Debug, Drop)]
pub enum MetaAnswer {
    /// One operation was done.
    One(OneAnswer),
    /// Each operation of several was done.
    Many(OneAnswers),
    /// The operation at this place, from 0, failed, and nothing is changed. A single operation has place 0.
    Failed { place: u16, why: Why },
}
