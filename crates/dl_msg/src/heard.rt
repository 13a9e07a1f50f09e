use crate::msg::Msg;
use dl_types::meta_answer::MetaAnswer;

/// What a task hears.
#[derive(Debug, Drop)]
pub enum Heard {
    /// The answer of the metadata node to the present request.
    Reply(MetaAnswer),
    /// A message of the bookie of this number.
    From(u8, Msg),
}
