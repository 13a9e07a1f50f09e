ghost use Rattle.std.specs.Prelude.{◌≡◌};
ghost use Rattle.dlog.specs.Commands.{alone, command_of};

use dl_types::word::Word;

/// What the words of the command line ask for.
#[derive(Clone, Copy, Debug, PartialEq, Eq)]
pub enum Command {
    /// The schedule of the source is replayed.
    Replay,
}

/// A command whose words end before this place, or the place, where a further word stands there.
fn alone(command: Command, place: u64, words: &[Word]) -> Result<Command, u64>
    ensures { result ≡ alone command place words.now }
{
    match words {
        [] => Ok(command),
        [_, ..] => Err(place),
    }
}

/// The command that the words ask for, or the place, from 1, of the first word at which no command goes on: one past the
/// last where words are missing.
pub fn command_of(words: &[Word]) -> Result<Command, u64>
    ensures { result ≡ command_of words.now }
{
    match words {
        [] => Err(1),
        [word, rest @ ..] => {
            if word.as_bytes() == b"replay".as_slice() {
                alone(Command::Replay, 2, rest)
            } else {
                Err(1)
            }
        }
    }
}
