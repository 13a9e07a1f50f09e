ghost use Rattle.std.specs.Prelude.{◌≡◌};
ghost use Rattle.dl_acts.specs.Parts.{acts_by};

use crate::confirmed::Confirmed;
use crate::parts::Parts;
use std::marker::Model;

/// What a client does as it takes a line or a letter. Contracts see the rule's acts.
#[derive(Debug, Drop)]
pub struct Acts {
    parts: Parts,
    confirmed: Option<Confirmed>,
}

impl Model for Acts {
    ghost use Rattle.dl_rules_client.specs.Acts as rule;
    ghost use Rattle.dl_acts.specs.Parts.{acts_by};

    ghost Value = { rule.Acts };

    ghost view = { λ a. acts_by a.parts a.confirmed };
}

impl Acts {
    /// What these parts say, with what the client's writer, where it has one, has confirmed then.
    pub fn new(parts: Parts, confirmed: Option<Confirmed>) -> Acts
        ensures { result ≡ acts_by parts confirmed }
    {
        Acts { parts, confirmed }
    }

    /// What the client's writer, where it has one, has confirmed then.
    pub fn confirmed(&self) -> Option<Confirmed>
        ensures { result ≡ self.now.confirmed }
    {
        self.confirmed
    }
}
