ghost use Rattle.std.specs.Prelude.{◌≡◌, ◌≢◌};
ghost use Rattle.dl_text.specs.Readers.{Gives};
ghost use Rattle.dl_text.specs.declared.refusal_word.RefusalWord.TheVariants as why;
ghost use Rattle.dl_transcript.specs.Reading.{refusal_rest_at, refusal_at};

use crate::field::u32_of;
use crate::path::path_of;
use dl_text::number::number_of;
use dl_text::place::place_of;
use dl_text::refusal_word::RefusalWord;
use dl_text::stop::Stop;
use dl_text::word::word_at;
use dl_types::bookie::{BookieId, MAX_BOOKIE};
use dl_types::path::Path;
use dl_types::refusal::Refusal;
use dl_types::session::SessionId;
use dl_types::txid::{MAX_TXID, TxId};
use std::alloc::Global;

/// The words of the refusals that an event can tell: that a name is bad is told before there is an order.
const WORDS: [RefusalWord; 15] = [
    RefusalWord::Expired,
    RefusalWord::Held,
    RefusalWord::Fenced,
    RefusalWord::Moved,
    RefusalWord::NoStream,
    RefusalWord::StreamExists,
    RefusalWord::TxidBack,
    RefusalWord::TooLong,
    RefusalWord::BeyondEnd,
    RefusalWord::NoWriter,
    RefusalWord::Truncated,
    RefusalWord::NotEmpty,
    RefusalWord::Busy,
    RefusalWord::WindowFull,
    RefusalWord::GaveUp,
];

/// `expired K`, behind its word.
fn expired_of(bytes: &[u8]) -> Result<(Refusal, &[u8]), Stop>
    ensures { Gives (λ x. (x.0, x.1.now)) result (refusal_rest_at why.Expired bytes.now) }
{
    let (session, rest) = number_of(1, u64::MAX, b'\n', bytes)?;
    let session = SessionId::new(session);
    Ok((Refusal::Expired { session }, rest))
}

/// `fenced B`, behind its word.
fn fenced_of(bytes: &[u8]) -> Result<(Refusal, &[u8]), Stop>
    ensures { Gives (λ x. (x.0, x.1.now)) result (refusal_rest_at why.Fenced bytes.now) }
{
    let (bookie, rest) = number_of(0, u64::from(MAX_BOOKIE), b'\n', bytes)?;
    let bookie = bookie as u8;
    let bookie = BookieId::new(bookie);
    Ok((Refusal::Fenced { bookie }, rest))
}

/// `moved PATH V`, behind its word.
fn moved_of(alloc: Global, bytes: &[u8]) -> Result<(Refusal, &[u8]), Stop>
    ensures { Gives (λ x. (x.0, x.1.now)) result (refusal_rest_at why.Moved bytes.now) }
{
    let (path, rest) = path_of(b' ', bytes)?;
    let (version, rest) = number_of(0, u64::MAX, b'\n', rest)?;
    let path = Path::new(alloc, path)?;
    Ok((Refusal::Moved { path, version }, rest))
}

/// `txidback T T`, behind its word.
fn txid_back_of(bytes: &[u8]) -> Result<(Refusal, &[u8]), Stop>
    ensures { Gives (λ x. (x.0, x.1.now)) result (refusal_rest_at why.TxidBack bytes.now) }
{
    let (last, rest) = number_of(0, MAX_TXID, b' ', bytes)?;
    let (given, rest) = number_of(0, MAX_TXID, b'\n', rest)?;
    let last = TxId::new(last);
    let given = TxId::new(given);
    Ok((Refusal::TxidBack { last, given }, rest))
}

/// `gaveup PATH`, behind its word.
fn gave_up_of(alloc: Global, bytes: &[u8]) -> Result<(Refusal, &[u8]), Stop>
    ensures { Gives (λ x. (x.0, x.1.now)) result (refusal_rest_at why.GaveUp bytes.now) }
{
    let (path, rest) = path_of(b'\n', bytes)?;
    let path = Path::new(alloc, path)?;
    Ok((Refusal::GaveUp { path }, rest))
}

/// `held N`, behind its word.
fn held_of(bytes: &[u8]) -> Result<(Refusal, &[u8]), Stop>
    ensures { Gives (λ x. (x.0, x.1.now)) result (refusal_rest_at why.Held bytes.now) }
{
    let (member, rest) = number_of(0, u64::MAX, b'\n', bytes)?;
    Ok((Refusal::Held { member }, rest))
}

/// `toolong N`, behind its word.
fn too_long_of(bytes: &[u8]) -> Result<(Refusal, &[u8]), Stop>
    ensures { Gives (λ x. (x.0, x.1.now)) result (refusal_rest_at why.TooLong bytes.now) }
{
    let (length, rest) = number_of(0, u64::MAX, b'\n', bytes)?;
    Ok((Refusal::TooLong { length }, rest))
}

/// `notempty N`, behind its word.
fn not_empty_of(bytes: &[u8]) -> Result<(Refusal, &[u8]), Stop>
    ensures { Gives (λ x. (x.0, x.1.now)) result (refusal_rest_at why.NotEmpty bytes.now) }
{
    let (count, rest) = number_of(0, u64::MAX, b'\n', bytes)?;
    Ok((Refusal::NotEmpty { count }, rest))
}

/// `beyondend D`, behind its word.
fn beyond_end_of(bytes: &[u8]) -> Result<(Refusal, &[u8]), Stop>
    ensures { Gives (λ x. (x.0, x.1.now)) result (refusal_rest_at why.BeyondEnd bytes.now) }
{
    let (end, rest) = place_of(0, b'\n', bytes)?;
    Ok((Refusal::BeyondEnd { end }, rest))
}

/// `truncated D`, behind its word.
fn truncated_of(bytes: &[u8]) -> Result<(Refusal, &[u8]), Stop>
    ensures { Gives (λ x. (x.0, x.1.now)) result (refusal_rest_at why.Truncated bytes.now) }
{
    let (point, rest) = place_of(0, b'\n', bytes)?;
    Ok((Refusal::Truncated { point }, rest))
}

/// `busy L`, behind its word.
fn busy_of(bytes: &[u8]) -> Result<(Refusal, &[u8]), Stop>
    ensures { Gives (λ x. (x.0, x.1.now)) result (refusal_rest_at why.Busy bytes.now) }
{
    let (line, rest) = u32_of(b'\n', bytes)?;
    Ok((Refusal::Busy { line }, rest))
}

/// A refusal behind its word.
fn rest_of(alloc: Global, word: RefusalWord, bytes: &[u8]) -> Result<(Refusal, &[u8]), Stop>
    requires { word ≢ why.BadName }
    ensures { Gives (λ x. (x.0, x.1.now)) result (refusal_rest_at word bytes.now) }
{
    match word {
        RefusalWord::Expired => expired_of(bytes),
        RefusalWord::Held => held_of(bytes),
        RefusalWord::Fenced => fenced_of(bytes),
        RefusalWord::Moved => moved_of(alloc, bytes),
        RefusalWord::NoStream => Ok((Refusal::NoStream, bytes)),
        RefusalWord::StreamExists => Ok((Refusal::StreamExists, bytes)),
        RefusalWord::TxidBack => txid_back_of(bytes),
        RefusalWord::TooLong => too_long_of(bytes),
        RefusalWord::BeyondEnd => beyond_end_of(bytes),
        RefusalWord::NoWriter => Ok((Refusal::NoWriter, bytes)),
        RefusalWord::Truncated => truncated_of(bytes),
        RefusalWord::NotEmpty => not_empty_of(bytes),
        RefusalWord::Busy => busy_of(bytes),
        RefusalWord::BadName => unreachable!(),
        RefusalWord::WindowFull => Ok((Refusal::WindowFull, bytes)),
        RefusalWord::GaveUp => gave_up_of(alloc, bytes),
    }
}

/// A refusal, to the end of the line.
pub fn refusal_of(alloc: Global, bytes: &[u8]) -> Result<(Refusal, &[u8]), Stop>
    ensures { Gives (λ x. (x.0, x.1.now)) result (refusal_at bytes.now) }
{
    let (word, rest) = word_at(&WORDS, bytes)?;
    rest_of(alloc, word, rest)
}
