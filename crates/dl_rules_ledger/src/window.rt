/// How many entries of a writer may be unconfirmed at a time: so many acknowledgements may be under way, and a writer
/// keeps no more than one set of places for each of them.
pub const WINDOW: usize = 64;
