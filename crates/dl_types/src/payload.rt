use crate::shared::Shared;

/// The kind of a record's bytes.
#[derive(Clone, Copy, Debug)]
pub struct PayloadKind;

/// The bytes of a record: at most `MAX_PAYLOAD` of them.
pub type Payload = Shared<PayloadKind>;

/// The most bytes of a payload. A record of that length and its head fit an entry.
pub const MAX_PAYLOAD: u64 = 1_040_384;
