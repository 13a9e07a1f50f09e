use dl_items::head::Head;
use dl_msg::msg::Msg;
use dl_pool::span::Span;

/// An item that waits in the pool.
#[derive(Debug, Drop)]
pub struct Piece {
    /// What it has beside the bytes of its entry.
    pub head: Head,
    /// How many bytes the item has.
    pub size: usize,
    /// Its bytes in the pool.
    pub span: Span,
}

/// A reply that waits for the next commit, with its item where it has one of its own.
#[derive(Debug, Drop)]
pub struct Queued {
    /// The client.
    pub client: u16,
    /// The client's session.
    pub session: u64,
    /// The reply.
    pub reply: Msg,
    /// The item.
    pub piece: Option<Piece>,
}
