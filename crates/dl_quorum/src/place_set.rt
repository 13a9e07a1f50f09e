ghost use Rattle.std.specs.Prelude.{◌≡◌, ℕ, ◌<◌, ◌==◌, ◌||◌, false};
ghost use Rattle.dl_quorum.specs.Places.{holds};

use std::marker::Model;

/// A set of ensemble places, 0 to 15. Contracts see it as the number whose bits are its members.
#[derive(Clone, Copy, Debug, PartialEq, Eq, Hash)]
pub struct PlaceSet {
    bits: u16,
}

impl Model for PlaceSet {
    ghost use Rattle.std.specs.Prelude.{ℕ};

    ghost Value = { ℕ };

    ghost view = { λ s. s.bits };

    ghost inverse = { λ n. record { bits = n } };
}

impl PlaceSet {
    /// The set without a place.
    pub fn empty() -> PlaceSet
        ensures value { result ≡ 0 }
        ensures members { (place : ℕ) → holds result place ≡ false }
    {
        PlaceSet { bits: 0 }
    }

    /// Whether the place is in the set.
    pub fn contains(self, place: u8) -> bool
        requires { place < 16 }
        ensures { result ≡ holds self place }
    {
        (self.bits >> place) & 1 == 1
    }

    /// The set with one place more.
    pub fn with(self, place: u8) -> PlaceSet
        requires { place < 16 }
        ensures { (other : ℕ) → holds result other ≡ (place == other || holds self other) }
    {
        PlaceSet {
            bits: self.bits | (1 << place),
        }
    }
}
