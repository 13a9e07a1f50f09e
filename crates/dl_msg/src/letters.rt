use crate::msg::Msg;
use dl_types::bookie::BookieId;
use dl_types::list::ListOf;

/// A message for a bookie.
#[derive(Clone, Debug, Drop)]
pub struct Told {
    /// The bookie.
    pub bookie: BookieId,
    /// The message.
    pub msg: Msg,
}

/// Messages for bookies, in the order of telling.
pub type Letters = ListOf<Told>;
