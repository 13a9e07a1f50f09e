ghost use Rattle.std.specs.Prelude.{◌≡◌, ℕ, Bool, false, List, IfOk};
ghost use Rattle.dl_quorum.specs.Sizes.{sizes_of};
ghost use Rattle.dl_quorum.specs.Pieces.{one_piece, ensemble_members, last_piece};
ghost use Rattle.dl_quorum.specs.Pieces.{acks, blocks, covers};
ghost use Rattle.dl_rules_ledger.specs.Subjects.{is_about, is_about_entry, known_count};
ghost use Rattle.dl_rules_ledger.specs.Subjects.{greatest_count, tell_write_set, tell_last_piece};
ghost use Rattle.dl_subject.specs.Sets.{IsSetOf, or_this, subject};
ghost use Rattle.dl_subject.specs.Telling.{IsForBookies};

use crate::places::{is_in_ensemble, is_in_write_set, place_of};
use crate::telling::{tell_ensemble, tell_write_set};
use dl_msg::letters::Letters;
use dl_msg::msg::Msg;
use dl_quorum::place_set::PlaceSet;
use dl_quorum::placement::{confirmed, covers, denied};
use dl_types::ensemble::Ensemble;
use dl_types::memory::NoMemory;
use dl_types::quorum::Quorum;
use std::alloc::{AllocError, Global};
use std::marker::Model;

/// What a task asks bookies about: a ledger on its ensemble, under the tag of the task's messages, which answers repeat. Sets of
/// places stand for the bookies that have answered.
#[derive(Debug, Drop)]
pub struct Subject {
    tag: u32,
    ledger: u64,
    q: Quorum,
    ensemble: Ensemble,
}

impl Model for Subject {
    ghost use Rattle.std.specs.Prelude.{◌≡◌};
    ghost use Rattle.dl_quorum.specs.Sizes.{sizes_of};
    ghost use Rattle.dl_quorum.specs.Pieces.{one_piece, ensemble_members};
    ghost use Rattle.dl_rules_ledger.specs.Subjects as about;
    ghost use Rattle.dl_subject.specs.Sets.{subject};

    ghost Value = { about.Subject };

    ghost view = { λ s. subject s.tag s.ledger
        (one_piece (sizes_of s.q) (ensemble_members s.ensemble)) };

    ghost invariant = { λ s. s.ensemble.e ≡ s.q.e };
}

impl Clone for Subject {
    ghost is_clone = { λ s copy. copy ≡ s };

    fn clone(&self) -> Result<Self, AllocError> {
        Ok(Subject {
            tag: self.tag,
            ledger: self.ledger,
            q: self.q,
            ensemble: self.ensemble,
        })
    }
}

impl Subject {
    /// A ledger on this ensemble, under this tag. The ensemble has as many bookies as the quorum says.
    pub fn new(tag: u32, ledger: u64, q: Quorum, ensemble: Ensemble) -> Subject
        requires { ensemble.e ≡ q.e }
        ensures { result
            ≡ subject tag ledger (one_piece (sizes_of q) (ensemble_members ensemble)) }
    {
        Subject {
            tag,
            ledger,
            q,
            ensemble,
        }
    }

    /// The tag of the messages.
    pub fn tag(&self) -> u32
        ensures { result ≡ self.now.tag }
    {
        self.tag
    }

    /// The ledger's number.
    pub fn ledger(&self) -> u64
        ensures { result ≡ self.now.ledger }
    {
        self.ledger
    }

    /// Whether an answer of a bookie is about the ledger: it has the tag, and the bookie is one of the ensemble.
    pub fn is_about(&self, bookie: u8, tag: u32, ledger: u64) -> bool
        ensures { result ≡ is_about self.now bookie tag ledger }
    {
        tag == self.tag && ledger == self.ledger && is_in_ensemble(&self.ensemble, bookie)
    }

    /// Whether an answer of a bookie that names an entry is about this one: it has the tag, and the bookie is one of the entry's
    /// write set.
    pub fn is_about_entry(&self, entry: u64, bookie: u8, tag: u32, ledger: u64, named: u64) -> bool
        ensures { result ≡ is_about_entry self.now entry bookie tag ledger named }
    {
        tag == self.tag
            && ledger == self.ledger
            && named == entry
            && is_in_write_set(self.q, &self.ensemble, entry, bookie)
    }

    /// A message for each bookie of an entry's write set, in the order of places.
    pub fn tell_write_set(&self, alloc: Global, entry: u64, msg: &Msg) -> Result<Letters, NoMemory>
        requires { IsForBookies msg.now }
        ensures { IfOk result (λ told. told ≡ tell_write_set self.now entry msg.now) }
    {
        tell_write_set(alloc, self.q, &self.ensemble, entry, msg)
    }

    /// A message for each bookie of the ensemble, in the order of places.
    pub fn tell_ensemble(&self, alloc: Global, msg: &Msg) -> Result<Letters, NoMemory>
        requires { IsForBookies msg.now }
        ensures { IfOk result (λ told. told ≡ tell_last_piece self.now msg.now) }
    {
        tell_ensemble(alloc, &self.ensemble, msg)
    }

    /// The set of nobody.
    pub fn nobody(&self) -> PlaceSet
        ensures { IsSetOf self.now.pieces (λ b. false) result }
    {
        PlaceSet::empty()
    }

    /// A set with one bookie more. A bookie outside the ensemble changes nothing.
    pub fn with(&self, set: PlaceSet, bookie: u8) -> PlaceSet
        ensures { (has : ℕ → Bool) → IsSetOf self.now.pieces has set
            → IsSetOf self.now.pieces (or_this bookie has) result }
    {
        match place_of(&self.ensemble, bookie) {
            Some(place) => set.with(place),
            None => set,
        }
    }

    /// Whether the bookies of a set have an ack quorum of the entry's write set.
    pub fn acks(&self, entry: u64, set: PlaceSet) -> bool
        ensures { (has : ℕ → Bool) → IsSetOf self.now.pieces has set
            → result ≡ acks self.now.pieces entry has }
    {
        confirmed(self.q, entry, set)
    }

    /// Whether so many of the entry's write set are in a set that the others are no ack quorum.
    pub fn blocks(&self, entry: u64, set: PlaceSet) -> bool
        ensures { (has : ℕ → Bool) → IsSetOf self.now.pieces has set
            → result ≡ blocks self.now.pieces entry has }
    {
        denied(self.q, entry, set)
    }

    /// Whether the bookies of a set cover the ensemble: they block each write set.
    pub fn covers(&self, set: PlaceSet) -> bool
        ensures { (has : ℕ → Bool) → IsSetOf self.now.pieces has set
            → result ≡ covers self.now.pieces has }
    {
        covers(self.q, set)
    }

    /// How many entries at least were confirmed, where this is the greatest count that was told: that of the entries before the
    /// ensemble's first one, or the greatest count.
    pub fn known_count(&self, greatest: u64) -> u64
        ensures { (answers : List (ℕ × ℕ)) → greatest ≡ greatest_count answers
            → result ≡ known_count self.now answers }
    {
        let _ = &self.tag;
        greatest
    }
}
