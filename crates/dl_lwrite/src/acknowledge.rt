ghost use Rattle.std.specs.Prelude.{◌≡◌, ℕ, ◌+◌, ◌^◌, ◌<◌, ◌≤◌, ◌==◌, ◌&&◌, length};
ghost use Rattle.std.specs.Prelude.{drop, slice_index, if◌then◌else◌, Some, None};
ghost use Rattle.dl_quorum.specs.Sizes.{sizes_of};
ghost use Rattle.dl_quorum.specs.WriteSets.{confirms};
ghost use Rattle.dl_quorum.specs.Places.{holds};
ghost use Rattle.dl_quorum.specs.Pieces.{ensemble_members};
ghost use Rattle.dl_rules_ledger.specs.Leading.{leading_count};
ghost use Rattle.dl_rules_ledger.specs.Writers.{is_add_ok, is_add_fenced, or_else};
ghost use Rattle.dl_lwrite.specs.Answering.{Gains};

use dl_msg::msg::Msg;
use dl_quorum::place_set::PlaceSet;
use dl_quorum::placement::confirmed;
use dl_subject::places::place_of;
use dl_types::ensemble::Ensemble;
use dl_types::quorum::Quorum;
use std::collections::VecDeque;

/// Adds a place to the answers of the entry at an index of the window.
fn note(window: &mut VecDeque<PlaceSet>, at: usize, place: u8)
    requires within { at < length window.old.items }
    requires place { place < 16 }
    ensures { Gains 16 (λ i other. i == at && place == other) window.old.items window.new.items }
{
    let answers = window[at];
    window[at] = answers.with(place);
}

/// Adds a place to the answers of the entry that a message acknowledges, where the entry is in the window, which begins at
/// the entry `first`.
fn note_add(ledger: u64, first: u64, window: &mut VecDeque<PlaceSet>, place: u8, msg: &Msg)
    requires { place < 16 }
    ensures { Gains 16 (λ i other. place == other && is_add_ok ledger (first + i) msg.now)
        window.old.items window.new.items }
{
    if let Msg::AddOk {
        ledger: named,
        entry,
    } = msg
    {
        if *named == ledger && first <= *entry && *entry - first < window.len() as u64 {
            note(window, (*entry - first) as usize, place);
        }
    }
}

/// Adds a bookie's place to the answers of the entry that its message acknowledges. A bookie outside the ensemble, an entry
/// outside the window and another ledger change nothing.
pub(crate) fn acknowledge(
    ledger: u64,
    first: u64,
    ensemble: &Ensemble,
    window: &mut VecDeque<PlaceSet>,
    bookie: u8,
    msg: &Msg,
)
    ensures { Gains ensemble.now.e
        (λ i place. bookie == slice_index (ensemble_members ensemble.now) place
        && is_add_ok ledger (first + i) msg.now)
        window.old.items window.new.items }
{
    if let Some(place) = place_of(ensemble, bookie) {
        note_add(ledger, first, window, place, msg);
    }
}

/// The first bookie that said that the ledger is fenced, once this message is heard.
pub(crate) fn fenced_after(fenced: Option<u8>, ledger: u64, bookie: u8, msg: &Msg) -> Option<u8>
    ensures { result ≡ or_else fenced (if is_add_fenced ledger msg.now then Some bookie else None) }
{
    match (fenced, msg) {
        (Some(first), _) => Some(first),
        (None, Msg::AddFenced { ledger: named, .. }) => {
            if *named == ledger { Some(bookie) } else { None }
        }
        (None, _) => None,
    }
}

/// Takes the entries off the front that have an ack quorum, and says how many they are.
pub(crate) fn advance(q: Quorum, first: u64, window: &mut VecDeque<PlaceSet>) -> usize
    requires { first + length window.old.items < 2 ^ 64 }
    ensures passed { result ≡ leading_count
        (λ i. confirms (sizes_of q) (first + i) (holds (slice_index window.old.items i)))
        (length window.old.items) }
    ensures few { result ≤ length window.old.items }
    ensures rest { window.new.items ≡ drop result window.old.items }
{
    let mut passed: usize = 0;
    while let Some(answers) = window.front() {
        if !confirmed(q, first + passed as u64, *answers) {
            break;
        }
        window.pop_front();
        passed += 1;
    }
    passed
}
