use crate::list::ListOf;
use crate::one_answer::OneAnswer;

/// The answers to the operations of a request of several, in their order.
pub type OneAnswers = ListOf<OneAnswer>;
