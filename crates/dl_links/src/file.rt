ghost use Rattle.std.specs.Prelude.{◌≡◌};
ghost use Rattle.dl_links.specs.Filing.{link_of, inbox_of};

use dl_msg::letter::Letter;
use dl_types::address::Address;

/// What the places of letters are filed by.
#[derive(Clone, Copy, Debug, PartialEq, Eq, Hash)]
pub enum File {
    /// The link from one node to another, on which letters are numbered.
    Link {
        /// Who sends them.
        from: Address,
        /// Who is to take them.
        to: Address,
    },
    /// The inbox of a receiver: of a client that of its session, since a letter of another session isn't delivered to it.
    Inbox {
        /// Who is to take them.
        to: Address,
        /// The session of a client; 0 for another node.
        session: u64,
    },
}

impl File {
    /// The link of a letter.
    pub fn link_of(letter: &Letter) -> File
        ensures { result ≡ link_of letter.now }
    {
        File::Link {
            from: letter.from,
            to: letter.to,
        }
    }

    /// The inbox that a letter is for.
    pub fn inbox_of(letter: &Letter) -> File
        ensures { result ≡ inbox_of letter.now }
    {
        match letter.to {
            Address::Client(_) => File::Inbox {
                to: letter.to,
                session: letter.session,
            },
            Address::Bookie(_) | Address::Meta => File::Inbox {
                to: letter.to,
                session: 0,
            },
        }
    }
}
