ghost use Rattle.std.specs.Prelude.{◌≡◌};
ghost use Rattle.dl_transcript.specs.Verbs.{verb_text};

use dl_text::word::Word;

/// The first word of an event, with the space behind it; a word that is a whole event ends in its
/// LF.
#[derive(Clone, Copy, Debug, PartialEq, Eq)]
pub enum Verb {
    Joined,
    Expired,
    Created,
    Removed,
    Released,
    Whole,
    Writer,
    Took,
    Sent,
    Grow,
    Ack,
    Committed,
    Closed,
    Recovered,
    Point,
    Truncated,
    Purged,
    Opened,
    Reading,
    End,
    Rows,
    Refused,
    Mail,
    Nothing,
}

impl Word for Verb {
    ghost text = { verb_text };

    fn text(self) -> &'static [u8] {
        match self {
            Verb::Joined => b"joined ",
            Verb::Expired => b"expired ",
            Verb::Created => b"created ",
            Verb::Removed => b"removed ",
            Verb::Released => b"released ",
            Verb::Whole => b"whole ",
            Verb::Writer => b"writer ",
            Verb::Took => b"took ",
            Verb::Sent => b"sent ",
            Verb::Grow => b"grow ",
            Verb::Ack => b"ack ",
            Verb::Committed => b"committed ",
            Verb::Closed => b"closed ",
            Verb::Recovered => b"recovered ",
            Verb::Point => b"point ",
            Verb::Truncated => b"truncated ",
            Verb::Purged => b"purged ",
            Verb::Opened => b"opened ",
            Verb::Reading => b"reading ",
            Verb::End => b"end ",
            Verb::Rows => b"rows ",
            Verb::Refused => b"refused ",
            Verb::Mail => b"mail ",
            Verb::Nothing => b"none\n",
        }
    }
}
