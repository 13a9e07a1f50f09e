ghost use Rattle.std.specs.Prelude.{◌≡◌};

use std::marker::Model;

/// A piece of bytes that a pool holds. Contracts see it as a number, which names the piece in its pool; it can't be copied,
/// so that a piece is freed once. A span that is dropped without `Pool::free` leaves its piece in the pool.
#[derive(Debug, Drop)]
pub struct Span {
    number: u32,
}

impl Model for Span {
    ghost use Rattle.std.specs.Prelude.{ℕ};

    ghost Value = { ℕ };

    ghost view = { λ s. s.number };
}

impl Span {
    /// The span of this number.
    pub(crate) fn new(number: u32) -> Span
        ensures { result ≡ number }
    {
        Span { number }
    }

    /// The number of the span.
    pub(crate) fn number(&self) -> u32
        ensures { result ≡ self.now }
    {
        self.number
    }
}
