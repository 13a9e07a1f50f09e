use crate::list::ListOf;
use crate::payload::Payload;

/// Payloads in order, as of the members of a record set.
pub type Payloads = ListOf<Payload>;
