ghost use Rattle.dl_events.specs.TxidWords.{txid_text};

use dl_text::word::Word;

/// The word in front of the transaction id from which a reader was opened.
#[derive(Clone, Copy, Debug, PartialEq, Eq)]
pub enum TxidWord {
    Txid,
}

impl Word for TxidWord {
    ghost text = { txid_text };

    fn text(self) -> &'static [u8] {
        b"txid "
    }
}
