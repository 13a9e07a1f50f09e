ghost use Rattle.dl_schedule.specs.EarlyLines.{opening_text};

use dl_text::word::Word;

/// A whole line of those with which each early schedule begins: it sets up three bookies with ensembles of three, write
/// quorums of three and ack quorums of two, and has client 0 create and open the stream `s`.
#[derive(Clone, Copy, Debug, PartialEq, Eq)]
pub enum Opening {
    Setup,
    Join,
    Create,
    Open,
    Settle,
}

impl Word for Opening {
    ghost text = { opening_text };

    fn text(self) -> &'static [u8] {
        match self {
            Opening::Setup => b"setup 3 3 3 2\n",
            Opening::Join => b"join 0\n",
            Opening::Create => b"create 0 s\n",
            Opening::Open => b"open 0 s\n",
            Opening::Settle => b"settle\n",
        }
    }
}
