//! What holds of a ledger's writer, for each list of calls: laws on their definitions, with no code.

ghost use Rattle.dl_rules_ledger.specs.Laws.{ConfirmedIsGreatest, ConfirmedNeverFalls, AcksAreOfAQuorum, MembersDiffer, EnsemblesDiffer, RingsAreEnsembles, FencesStay, AddsAreWhole};

/// The confirmed count is the greatest number, at most that of the entries sent, below which each entry has an ack quorum.
pub fn confirmed_is_greatest()
    ensures { ConfirmedIsGreatest }
{}

/// Whatever call comes, the confirmed count doesn't fall.
pub fn confirmed_never_falls()
    ensures { ConfirmedNeverFalls }
{}

/// Each confirmed entry was acknowledged by an ack quorum of different bookies of its write set: the bookies of a write set
/// differ where those of its piece do, and those of an ensemble differ.
pub fn acks_are_of_different_bookies()
    ensures acks { AcksAreOfAQuorum }
    ensures members { MembersDiffer }
    ensures ensembles { EnsemblesDiffer }
{}

/// The one piece of a writer's ensemble is the ledger's ring, where the ensemble begins as the ledger's number says.
pub fn rings_are_ensembles()
    ensures { RingsAreEnsembles }
{}

/// The first bookie that said that the ledger is fenced stays the one that is named.
pub fn fences_stay()
    ensures { FencesStay }
{}

/// Where the bytes that are sent spell an entry, each message that carries them is whole.
pub fn adds_are_whole()
    ensures { AddsAreWhole }
{}
