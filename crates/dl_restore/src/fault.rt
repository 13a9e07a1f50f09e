use dl_msg::resource::Resource;
use thiserror::Error;

/// Why the batches of a journal give no storage node.
#[derive(Clone, Copy, Debug, PartialEq, Eq, Error)]
pub enum RestoreFault {
    /// An item breaks its layout. The offset, from 0, of the first byte of the part that breaks it.
    #[error("items damaged at {0}")]
    Damaged(u64),
    /// The items have more entries or more ledgers than the tables take.
    #[error("too many entries or ledgers")]
    Crowded(Resource),
}
