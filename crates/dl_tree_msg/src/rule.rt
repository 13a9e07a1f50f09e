ghost use Rattle.std.specs.Prelude.{◌≡◌};
ghost use Rattle.dl_tree_msg.specs.Rules.{allows};

/// Which nodes a request may delete or set.
#[derive(Clone, Copy, Debug, PartialEq, Eq)]
pub enum PathRule {
    /// All of them: so it is in messages.
    All,
    /// All but `/conf`, which stays as it was made: so it is where the metadata node runs a request.
    AllButConf,
}

impl PathRule {
    /// Whether the node of a path may be deleted or set.
    pub fn allows(self, path: &[u8]) -> bool
        ensures { result ≡ allows self path.now }
    {
        match self {
            PathRule::All => true,
            PathRule::AllButConf => !(path == b"/conf".as_slice()),
        }
    }
}
