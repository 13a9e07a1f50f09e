/// The kinds of items, as their first byte.
pub(crate) const ADD: u8 = 1;

pub(crate) const COPY: u8 = 2;

pub(crate) const FENCE: u8 = 3;

/// What an item is.
#[derive(Clone, Copy, Debug)]
pub(crate) enum Kind {
    Add,
    Copy,
    Fence,
}
