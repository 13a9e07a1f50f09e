ghost use Rattle.std.specs.Prelude.{◌≡◌, ◌≤◌, ◌<◌, ◌+◌, ◌%◌};
ghost use Rattle.dl_types.specs.Ensembles.{IsEnsemble};

/// The bookies that a ledger is spread over at first, in the order of their places: a ring of neighbours among all
/// bookies, which begins where the ledger's number says.
#[derive(Clone, Copy, Debug, PartialEq, Eq)]
pub struct Ensemble {
    /// The bookie at place 0.
    pub first: u8,
    /// How many bookies there are.
    pub bookies: u8,
    /// How many of them belong to the ensemble.
    pub e: u8,
    pub ghost rule: { IsEnsemble first bookies e },
}

impl Ensemble {
    /// The ensemble of `e` bookies of this ledger.
    pub fn of(ledger: u64, bookies: u8, e: u8) -> Ensemble
        requires some { 1 ≤ e }
        requires within { e ≤ bookies }
        requires few { bookies ≤ 16 }
        ensures first { result.first ≡ ledger % bookies }
        ensures bookies { result.bookies ≡ bookies }
        ensures e { result.e ≡ e }
    {
        let first = (ledger % u64::from(bookies)) as u8;
        Ensemble { first, bookies, e }
    }

    /// The bookie at this place, from 0.
    pub fn bookie(&self, place: u8) -> u8
        requires { place < self.now.e }
        ensures { result ≡ (self.now.first + place) % self.now.bookies }
    {
        (self.first + place) % self.bookies
    }
}
