ghost use Rattle.std.specs.Prelude.{◌≡◌, ℕ, ◌<◌, ◌==◌, Some, slice_index};
ghost use Rattle.dl_quorum.specs.Sizes.{sizes_of};
ghost use Rattle.dl_quorum.specs.Pieces.{one_piece, ensemble_members, members};
ghost use Rattle.dl_rules_ledger.specs.Subjects.{among};
ghost use Rattle.dl_subject.specs.Places.{LeadsTo, is_at};

use dl_quorum::placement::write_set;
use dl_types::ensemble::Ensemble;
use dl_types::quorum::Quorum;

/// How many steps round all bookies lead from the ensemble's first bookie to another.
fn steps_to(ensemble: &Ensemble, bookie: u8) -> u8
    requires { bookie < ensemble.now.bookies }
    ensures { LeadsTo ensemble.now bookie result }
{
    if ensemble.first <= bookie {
        bookie - ensemble.first
    } else {
        bookie + ensemble.bookies - ensemble.first
    }
}

/// The place of a bookie in an ensemble, where it has one.
pub fn place_of(ensemble: &Ensemble, bookie: u8) -> Option<u8>
    ensures few { (at : ℕ) → result ≡ Some at → at < ensemble.now.e }
    ensures exact { (place : ℕ) → place < ensemble.now.e
        → is_at result place ≡ (bookie == slice_index (ensemble_members ensemble.now) place) }
{
    if bookie >= ensemble.bookies {
        return None;
    }
    let place = steps_to(ensemble, bookie);
    if place < ensemble.e {
        Some(place)
    } else {
        None
    }
}

/// Whether a bookie is one of an ensemble.
pub fn is_in_ensemble(ensemble: &Ensemble, bookie: u8) -> bool
    ensures { result ≡ among (ensemble_members ensemble.now) bookie }
{
    match place_of(ensemble, bookie) {
        Some(_) => true,
        None => false,
    }
}

/// Whether a bookie is one of an entry's write set. The ensemble has as many bookies as the quorum says.
pub fn is_in_write_set(q: Quorum, ensemble: &Ensemble, entry: u64, bookie: u8) -> bool
    requires { ensemble.now.e ≡ q.e }
    ensures { result ≡ among
        (members (one_piece (sizes_of q) (ensemble_members ensemble.now)) entry) bookie }
{
    match place_of(ensemble, bookie) {
        Some(place) => write_set(q, entry).contains(place),
        None => false,
    }
}
