use crate::bookie::BookieId;
use crate::client::ClientId;

/// A node that sends and takes letters.
#[derive(Clone, Copy, Debug, PartialEq, Eq, PartialOrd, Ord, Hash)]
pub enum Address {
    /// The client of this number.
    Client(ClientId),
    /// The bookie of this number.
    Bookie(BookieId),
    /// The metadata node.
    Meta,
}
