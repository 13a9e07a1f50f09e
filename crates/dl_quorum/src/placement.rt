ghost use Rattle.std.specs.Prelude.{◌≡◌, ℕ, ◌<◌, ◌≤◌, ◌==◌, count_by, length, IfSome, IfNone};
ghost use Rattle.std.specs.List.{list_any};
ghost use Rattle.dl_quorum.specs.WriteSets.{write_place, write_set, confirms};
ghost use Rattle.dl_quorum.specs.WriteSets.{denies, covers_places};
ghost use Rattle.dl_quorum.specs.Places.{holds, IsPlaceOf};
ghost use Rattle.dl_quorum.specs.Sizes.{sizes_of};

use crate::place_set::PlaceSet;
use dl_types::quorum::Quorum;

/// The ensemble place of an entry's copy number `i`, from 0: entries go round the ensemble, one place further each
/// (BookKeeper's round robin distribution schedule).
pub fn write_place(q: Quorum, entry: u64, i: u8) -> u8
    requires { i < q.qw }
    ensures value { result ≡ write_place (sizes_of q) entry i }
    ensures bound { result < q.e }
{
    ((entry % u64::from(q.e)) as u8 + i) % q.e
}

/// The place of a bookie among the members of an ensemble, or `None` where it is no member.
pub fn place_of(members: &[u8], bookie: u8) -> Option<u8>
    requires { length members.now ≤ 16 }
    ensures found { IfSome result (λ place. IsPlaceOf members.now bookie place) }
    ensures none { IfNone result ((place : ℕ) → IsPlaceOf members.now bookie place → ⊥) }
{
    for (place, member) in members.iter().enumerate() {
        if *member == bookie {
            return Some(place as u8);
        }
    }
    None
}

/// The places of an entry's copies.
pub fn write_set(q: Quorum, entry: u64) -> PlaceSet
    ensures { (place : ℕ) →
        holds result place ≡ list_any (λ member. member == place) (write_set (sizes_of q) entry) }
{
    let mut set = PlaceSet::empty();
    for i in 0..q.qw {
        set = set.with(write_place(q, entry, i));
    }
    set
}

/// How many members of the entry's write set are in the set.
fn count_of(q: Quorum, entry: u64, set: PlaceSet) -> u8
    ensures { result ≡ count_by (holds set) (write_set (sizes_of q) entry) }
{
    let mut count: u8 = 0;
    for i in 0..q.qw {
        if set.contains(write_place(q, entry, i)) {
            count += 1;
        }
    }
    count
}

/// Whether the places that acknowledged the entry are enough to confirm it: at least `qa` members of its write set
/// (BookKeeper: an entry is acknowledged to the client once an ack quorum has it).
pub fn confirmed(q: Quorum, entry: u64, set: PlaceSet) -> bool
    ensures { result ≡ confirms (sizes_of q) entry (holds set) }
{
    count_of(q, entry, set) >= q.qa
}

/// Whether the places that denied the entry are enough to say that it was never confirmed: at least `qw - qa + 1`
/// members of its write set, so that the others are no ack quorum.
pub fn denied(q: Quorum, entry: u64, set: PlaceSet) -> bool
    ensures { result ≡ denies (sizes_of q) entry (holds set) }
{
    count_of(q, entry, set) > q.qw - q.qa
}

/// Whether the set has at least `qw - qa + 1` members of each write set (BookKeeper's ledger recovery reads and fences a
/// quorum that covers the ensemble): no entry is then confirmed by the other places alone.
pub fn covers(q: Quorum, set: PlaceSet) -> bool
    ensures { result ≡ covers_places (sizes_of q) (holds set) }
{
    for entry in 0..q.e {
        if !denied(q, u64::from(entry), set) {
            return false;
        }
    }
    true
}
