ghost use Rattle.std.specs.Prelude.{◌<◌};

/// The entry that is fetched, below the count of those that can be read.
#[derive(Clone, Copy, Debug)]
pub(crate) struct Span {
    pub(crate) entry: u64,
    pub(crate) readable: u64,
    pub(crate) ghost below: { entry < readable },
}
