ghost use Rattle.std.specs.Prelude.{◌≡◌, ◌<◌, ◌+◌, ◌%◌, IfOk};
ghost use Rattle.dl_quorum.specs.Sizes.{sizes_of};
ghost use Rattle.dl_quorum.specs.Pieces.{one_piece, ensemble_members, members};
ghost use Rattle.dl_rules_ledger.specs.Subjects.{tell_each};
ghost use Rattle.dl_subject.specs.Telling.{IsForBookies, letter};

use dl_msg::letters::{Letters, Told};
use dl_msg::msg::Msg;
use dl_quorum::placement::write_place;
use dl_types::bookie::BookieId;
use dl_types::ensemble::Ensemble;
use dl_types::memory::NoMemory;
use dl_types::quorum::Quorum;
use std::alloc::Global;

/// The same message again, which shares the bytes of an entry.
fn copy_of(msg: &Msg) -> Result<Msg, NoMemory>
    requires { IsForBookies msg.now }
    ensures { IfOk result (λ copy. copy ≡ msg.now) }
{
    match msg {
        Msg::Add {
            ledger,
            entry,
            count,
            bytes,
        } => Ok(Msg::Add {
            ledger: *ledger,
            entry: *entry,
            count: *count,
            bytes: bytes.clone()?,
        }),
        Msg::Copy {
            tag,
            ledger,
            entry,
            count,
            bytes,
        } => Ok(Msg::Copy {
            tag: *tag,
            ledger: *ledger,
            entry: *entry,
            count: *count,
            bytes: bytes.clone()?,
        }),
        Msg::AskLac { tag, ledger, fence } => Ok(Msg::AskLac {
            tag: *tag,
            ledger: *ledger,
            fence: *fence,
        }),
        Msg::AskEntry { tag, ledger, entry } => Ok(Msg::AskEntry {
            tag: *tag,
            ledger: *ledger,
            entry: *entry,
        }),
        _ => unreachable!(),
    }
}

/// The bookie at this place of an ensemble, from 0.
fn bookie_at(ensemble: &Ensemble, place: u8) -> BookieId
    requires { place < ensemble.now.e }
    ensures { result ≡ (ensemble.now.first + place) % ensemble.now.bookies }
{
    BookieId::new(ensemble.bookie(place))
}

/// A message for a bookie.
fn tell(bookie: BookieId, msg: &Msg) -> Result<Told, NoMemory>
    requires { IsForBookies msg.now }
    ensures { IfOk result (λ told. told ≡ letter msg.now bookie) }
{
    let msg = copy_of(msg)?;
    Ok(Told { bookie, msg })
}

/// A message for each bookie of an entry's write set, in the order of places. The ensemble has as many bookies as the quorum
/// says.
pub fn tell_write_set(
    alloc: Global,
    q: Quorum,
    ensemble: &Ensemble,
    entry: u64,
    msg: &Msg,
) -> Result<Letters, NoMemory>
    requires ensemble { ensemble.now.e ≡ q.e }
    requires msg { IsForBookies msg.now }
    ensures { IfOk result (λ told. told ≡ tell_each
        (members (one_piece (sizes_of q) (ensemble_members ensemble.now)) entry) msg.now) }
{
    let mut told = Vec::with_capacity(alloc, usize::from(q.qw))?;
    for i in 0..q.qw {
        let bookie = bookie_at(ensemble, write_place(q, entry, i));
        told.push(tell(bookie, msg)?)?;
    }
    Ok(Letters::from_vec(told))
}

/// A message for each bookie of an ensemble, in the order of places.
pub fn tell_ensemble(alloc: Global, ensemble: &Ensemble, msg: &Msg) -> Result<Letters, NoMemory>
    requires { IsForBookies msg.now }
    ensures { IfOk result (λ told. told ≡ tell_each (ensemble_members ensemble.now) msg.now) }
{
    let mut told = Vec::with_capacity(alloc, usize::from(ensemble.e))?;
    for place in 0..ensemble.e {
        told.push(tell(bookie_at(ensemble, place), msg)?)?;
    }
    Ok(Letters::from_vec(told))
}
