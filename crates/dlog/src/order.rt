use dl_types::client::ClientId;
use dl_types::name::Name;

/// The order of a client that is under way until the next `settle`.
#[derive(Debug, Drop)]
pub enum Order {
    /// The client creates the stream.
    Create { client: ClientId, stream: Name },
    /// The client becomes the writer of the stream.
    Open { client: ClientId, stream: Name },
}
