ghost use Rattle.std.specs.Prelude.{◌≡◌, ◌≤◌};

use crate::dlsn::Dlsn;
use std::marker::Model;

/// A place of a stream as a line of a schedule or a command names it: its segment is 1 or more, since segments are numbered
/// from 1. Contracts see it as its DLSN.
#[derive(Clone, Copy, Debug, PartialEq, Eq, PartialOrd, Ord, Hash)]
pub struct Place {
    dlsn: Dlsn,
}

impl Model for Place {
    ghost use Rattle.std.specs.Prelude.{◌≤◌};
    ghost use Rattle.dl_types.specs.declared.dlsn.Dlsn.{Dlsn};

    ghost Value = { Dlsn };

    ghost view = { λ a. a.dlsn };

    ghost invariant = { λ a. 1 ≤ a.dlsn.segment };

    ghost inverse = { λ d. record { dlsn = d } };
}

impl Place {
    /// The place of this DLSN.
    pub fn new(dlsn: Dlsn) -> Place
        requires { 1 ≤ dlsn.segment }
        ensures { result ≡ dlsn }
    {
        Place { dlsn }
    }

    /// The place's DLSN.
    pub fn dlsn(self) -> Dlsn
        ensures value { result ≡ self }
        ensures segment { 1 ≤ result.segment }
    {
        self.dlsn
    }
}
