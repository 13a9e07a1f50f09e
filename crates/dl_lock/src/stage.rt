use dl_types::path::Path;

/// Which request the task waits for, and what it keeps for the ones behind it.
#[derive(Debug, Drop)]
pub enum Stage {
    /// That which makes its member.
    Making,
    /// That which lists the members; its own has this path.
    Listing { member: Path },
    /// That which deletes its member, since another has this lesser number.
    Leaving { member: Path, least: u64 },
    /// None: it is done or refused.
    Over,
}
