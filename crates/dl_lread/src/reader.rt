ghost use Rattle.std.specs.Prelude.{◌≡◌, [], IfOk, OnErr};
ghost use Rattle.dl_quorum.specs.Sizes.{sizes_of};
ghost use Rattle.dl_quorum.specs.Pieces.{one_piece, ensemble_members};
ghost use Rattle.dl_rules_ledger.specs.Subjects as about;
ghost use Rattle.dl_rules_ledger.specs.Readers.{AsksCount, Asks, Hears, asks_count, asks_entry};
ghost use Rattle.dl_rules_ledger.specs.Readers.{ReaderStage, Idle, Counting, Fetching, hears};
ghost use Rattle.dl_subject.specs.Sets.{subject};
ghost use Rattle.dl_lread.specs.Standing.{StandsAt, AsksAt, AnswersAt};
ghost use Rattle.dl_lread.specs.Standing.{ReaderView, StandsFor, IsAsking, IsHearing, new_view};

use crate::answers::{after_msg, got_at};
use crate::got::Got;
use crate::stage::Stage;
use dl_msg::letters::Letters;
use dl_msg::msg::Msg;
use dl_subject::subject::Subject;
use dl_types::ensemble::Ensemble;
use dl_types::memory::NoMemory;
use dl_types::quorum::Quorum;
use std::alloc::{AllocError, Global};
use std::marker::Model;

/// The reader of a ledger. It keeps the set of places that have answered, and the greatest count that they told.
#[derive(Drop)]
pub struct LedgerReader {
    alloc: Global,
    subject: Subject,
    stage: Stage,
}

impl Model for LedgerReader {
    ghost use Rattle.dl_lread.specs.Facts.{ReaderFacts};

    ghost Value = { ReaderFacts };

    ghost view = { λ r. record { subject = r.subject; stage = r.stage } };
}

/// A clone reads on by itself: a task lets one hear, and keeps it once nothing else can fail.
impl Clone for LedgerReader {
    ghost is_clone = { λ r copy. copy ≡ r };

    fn clone(&self) -> Result<Self, AllocError> {
        let subject = self.subject.clone()?;
        let stage = self.stage.clone()?;
        Ok(LedgerReader {
            alloc: self.alloc,
            subject,
            stage,
        })
    }
}

impl LedgerReader {
    /// A reader of this ledger that was asked for nothing; its messages have this tag. The ensemble has as many bookies as the
    /// quorum says.
    #[tactic(auto, unfolding(dl_rules_ledger::specs::Readers::stage_of))]
    pub fn start(
        alloc: Global,
        tag: u32,
        ledger: u64,
        q: Quorum,
        ensemble: Ensemble,
    ) -> Result<LedgerReader, NoMemory>
        requires { ensemble.e ≡ q.e }
        ensures stage { let pieces = one_piece (sizes_of q) (ensemble_members ensemble) in
            IfOk result (StandsAt (subject tag ledger pieces) Idle) }
        ensures view { let pieces = one_piece (sizes_of q) (ensemble_members ensemble) in
            IfOk result (StandsFor (new_view (subject tag ledger pieces))) }
    {
        Ok(LedgerReader {
            alloc,
            subject: Subject::new(tag, ledger, q, ensemble),
            stage: Stage::Idle,
        })
    }

    /// Asks the ensemble how many entries can be read: the messages, in the order of places. What was asked before is given up.
    /// Want of memory leaves the reader as it is.
    #[tactic(auto, unfolding(dl_rules_ledger::specs::Readers::stage_of))]
    pub fn ask_lac(&mut self) -> Result<Letters, NoMemory>
        ensures goes { IfOk result (λ told. (x : about.Subject) (s : ReaderStage)
            → StandsAt x s self.old → AsksAt x (Counting []) (asks_count x) told self.new) }
        ensures view { IfOk result (λ told. (v : ReaderView) → StandsFor v self.old
            → IsAsking v AsksCount (asks_count v.subject) told self.new) }
        ensures kept { OnErr result (self.new ≡ self.old) }
    {
        let msg = Msg::AskLac {
            tag: self.subject.tag(),
            ledger: self.subject.ledger(),
            fence: false,
        };
        let told = self.subject.tell_ensemble(self.alloc, &msg)?;
        self.stage = Stage::Counting {
            answered: self.subject.nobody(),
            greatest: 0,
        };
        Ok(told)
    }

    /// Asks the write set of an entry for its bytes: the messages, in the order of places. What was asked before is given up.
    /// Want of memory leaves the reader as it is.
    #[tactic(auto, unfolding(dl_rules_ledger::specs::Readers::stage_of))]
    pub fn ask(&mut self, entry: u64) -> Result<Letters, NoMemory>
        ensures goes { IfOk result (λ told. (x : about.Subject) (s : ReaderStage)
            → StandsAt x s self.old
            → AsksAt x (Fetching entry) (asks_entry x entry) told self.new) }
        ensures view { IfOk result (λ told. (v : ReaderView) → StandsFor v self.old
            → IsAsking v (Asks entry) (asks_entry v.subject entry) told self.new) }
        ensures kept { OnErr result (self.new ≡ self.old) }
    {
        let msg = Msg::AskEntry {
            tag: self.subject.tag(),
            ledger: self.subject.ledger(),
            entry,
        };
        let told = self.subject.tell_write_set(self.alloc, entry, &msg)?;
        self.stage = Stage::Fetching { entry };
        Ok(told)
    }

    /// Hears a message of a bookie, and says what it has got: the count of entries that can be read from the first moment on at
    /// which the bookies that answered cover; the bytes of the asked entry from the first answer on that has them; until then
    /// nothing. Messages that answer nothing that was asked change nothing. Want of memory leaves the reader as it is.
    #[tactic(auto, unfolding(dl_rules_ledger::specs::Readers::stage_of))]
    pub fn hear(&mut self, bookie: u8, msg: &Msg) -> Result<Got, NoMemory>
        ensures goes { IfOk result (λ got. (x : about.Subject) (s : ReaderStage)
            → StandsAt x s self.old → AnswersAt x (hears x s bookie msg.now) got self.new) }
        ensures view { IfOk result (λ got. (v : ReaderView) → StandsFor v self.old
            → IsHearing v (Hears bookie msg.now) got self.new) }
        ensures kept { OnErr result (self.new ≡ self.old) }
    {
        let Some(stage) = after_msg(&self.subject, &self.stage, bookie, msg)? else {
            return got_at(&self.stage);
        };
        let got = got_at(&stage)?;
        self.stage = stage;
        Ok(got)
    }
}
