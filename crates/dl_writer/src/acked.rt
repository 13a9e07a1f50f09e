use dl_msg::letters::Letters;
use dl_types::dlsn::Dlsn;
use dl_types::list::ListOf;
use dl_types::row::Origin;

/// Where rows come from, and the places that they have, by rising places.
pub type Spots = ListOf<(Origin, Dlsn)>;

/// What a writer tells when it has heard a message.
#[derive(Debug, Drop)]
pub struct Acked {
    /// How many of the first entries are confirmed now.
    pub confirmed: u64,
    /// The rows of the entries that the message confirmed.
    pub rows: Spots,
    /// The messages of the control entry that a commit sends now; often none.
    pub letters: Letters,
}
