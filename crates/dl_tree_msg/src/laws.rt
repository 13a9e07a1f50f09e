//! What holds of the readers of this crate, for all bytes: laws on their definitions, with no code.

ghost use Rattle.dl_tree_msg.specs.Laws.{RequestsAreExact, AnswersAreExact};

/// Operations on the metadata tree, and requests, are spelt in one way and read as they are spelt, whatever nodes may be
/// deleted and set.
pub fn requests_are_exact()
    ensures { RequestsAreExact }
{}

/// Answers to operations on the metadata tree, and to requests, are spelt in one way and read as they are spelt.
pub fn answers_are_exact()
    ensures { AnswersAreExact }
{}
