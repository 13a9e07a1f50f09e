//! What letters and deliveries mean to the machine, with no code.

ghost use Rattle.dl_links.specs.Laws.{LettersStand};

/// Letters that are sent and delivered stand for the machine's, and the first that waits in the inboxes of those that can take
/// something is the one that settling delivers next.
pub fn letters_stand()
    ensures { LettersStand }
{}
