use dl_types::name::Name;
use dl_types::row::Rows;
use std::marker::Model;

/// An entry that was sent of a segment's ledger. Contracts see it as the rule's.
#[derive(Debug, Drop)]
pub struct SentEntry {
    /// The stream.
    pub stream: Name,
    /// The number of its segment.
    pub segment: u64,
    /// The number of the segment's ledger.
    pub ledger: u64,
    /// The number of the entry in the ledger.
    pub entry: u64,
    /// The entry's rows; a control entry has none.
    pub rows: Rows,
}

impl Model for SentEntry {
    ghost use Rattle.dl_rules_client.specs.Acts as acts;

    ghost Value = { acts.SentEntry };

    ghost view = { λ s. record {
      stream = s.stream;
      segment = s.segment;
      ledger = s.ledger;
      entry = s.entry;
      rows = s.rows;
    } };
}
