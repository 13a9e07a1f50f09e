use dl_types::name::Name;
use dl_types::payloads::Payloads;
use dl_types::txid::TxId;

/// Records of one transaction id that were taken, their calls numbered from this one on.
#[derive(Debug, Drop)]
pub struct Records {
    /// The stream.
    pub stream: Name,
    /// Their transaction id.
    pub txid: TxId,
    /// The call of the first one.
    pub call: u32,
    /// Their payloads, in order.
    pub payloads: Payloads,
}
