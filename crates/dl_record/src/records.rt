use crate::stored::Stored;
use dl_types::list::ListOf;

/// The stored records of an entry, in order.
pub type Records = ListOf<Stored>;
