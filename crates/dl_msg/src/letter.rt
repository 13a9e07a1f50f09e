use crate::msg::Msg;
use dl_types::address::Address;

/// A message with its sender and its receiver. The session is that of the client at either end.
#[derive(Clone, Debug, Drop)]
pub struct Letter {
    /// Who sends it.
    pub from: Address,
    /// Who is to take it.
    pub to: Address,
    /// The client's session.
    pub session: u64,
    /// What it says.
    pub msg: Msg,
}
