ghost use Rattle.dl_session.specs.Laws.{GoneIsGone, RunsOnce, NeverAgain};

/// A session that was given and is not live is never live again.
pub fn gone_is_gone()
    ensures { GoneIsGone }
{}

/// A request that runs leaves its number as the last one of its session, and no number of another session changes.
pub fn runs_once()
    ensures { RunsOnce }
{}

/// Each number of a session runs at most once: a request that was admitted and ran is never admitted again, whatever
/// sessions are opened, expire, and run requests after it.
pub fn never_again()
    ensures { NeverAgain }
{}
