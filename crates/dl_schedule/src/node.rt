use dl_types::bookie::BookieId;

/// A node that can be up or down: a bookie, or the metadata node.
#[derive(Clone, Copy, Debug, PartialEq, Eq)]
pub enum Node {
    Bookie(BookieId),
    Meta,
}
