//! What holds of every client: laws on its definitions, with no code.

ghost use Rattle.dl_rules_client.specs.EventRanges.{ClientEventsFit};

/// The values of each event that a client shows are such as its line takes, and its letters fit:
/// they are on links, name streams and paths, and carry entries of bytes. The lines that it took are
/// such as the grammar takes, and the letters that it heard fit likewise.
pub fn client_events_fit_their_lines()
    ensures { ClientEventsFit }
{}
