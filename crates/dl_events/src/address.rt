ghost use Rattle.std.specs.Prelude.{◌≡◌};
ghost use Rattle.dl_text.specs.Readers.{Gives};
ghost use Rattle.dl_transcript.specs.Lines.{space};
ghost use Rattle.dl_schedule.specs.declared.words.NodeWord.TheVariants as letter;
ghost use Rattle.dl_schedule.specs.StepReading.{address_rest_at, address_at, letters};
ghost use Rattle.dl_schedule.specs.StepReading.{node_letters, other_letters};

use crate::field::client_of;
use dl_text::hex::end_of;
use dl_text::number::number_of;
use dl_text::stop::Stop;
use dl_types::address::Address;
use dl_types::bookie::{BookieId, MAX_BOOKIE};
use dl_types::client::ClientId;

/// The address of a client behind its letter, and the space behind it.
fn client_end_of(bytes: &[u8]) -> Result<(Address, &[u8]), Stop>
    ensures { Gives (λ x. (x.0, x.1.now)) result (address_rest_at space letter.Client bytes.now) }
{
    let (client, rest) = client_of(b' ', bytes)?;
    Ok((Address::Client(ClientId::new(client)), rest))
}

/// The address of a bookie behind its letter, and the space behind it.
fn bookie_end_of(bytes: &[u8]) -> Result<(Address, &[u8]), Stop>
    ensures { Gives (λ x. (x.0, x.1.now)) result (address_rest_at space letter.Bookie bytes.now) }
{
    let (bookie, rest) = number_of(0, u64::from(MAX_BOOKIE), b' ', bytes)?;
    let bookie = bookie as u8;
    Ok((Address::Bookie(BookieId::new(bookie)), rest))
}

/// The address of the metadata node behind its letter, and the space behind it.
fn meta_end_of(bytes: &[u8]) -> Result<(Address, &[u8]), Stop>
    ensures { Gives (λ x. (x.0, x.1.now)) result (address_rest_at space letter.Meta bytes.now) }
{
    let rest = end_of(b' ', bytes)?;
    Ok((Address::Meta, rest))
}

/// One end of a link.
pub fn address_of(bytes: &[u8]) -> Result<(Address, &[u8]), Stop>
    ensures { Gives (λ x. (x.0, x.1.now)) result (address_at space letters bytes.now) }
{
    match bytes {
        [b'c', rest @ ..] => client_end_of(rest),
        [b'b', rest @ ..] => bookie_end_of(rest),
        [b'm', rest @ ..] => meta_end_of(rest),
        _ => Err(Stop::Left(bytes.len())),
    }
}

/// A node, at the other end of a client's link.
fn node_of(bytes: &[u8]) -> Result<(Address, &[u8]), Stop>
    ensures { Gives (λ x. (x.0, x.1.now)) result (address_at space node_letters bytes.now) }
{
    match bytes {
        [b'b', rest @ ..] => bookie_end_of(rest),
        [b'm', rest @ ..] => meta_end_of(rest),
        _ => Err(Stop::Left(bytes.len())),
    }
}

/// The other end of a link: a node where this end is a client, and a client where it is a node.
pub fn other_end_of<'a>(from: &Address, bytes: &'a [u8]) -> Result<(Address, &'a [u8]), Stop>
    ensures { Gives (λ x. (x.0, x.1.now)) result
        (address_at space (other_letters from.now) bytes.now) }
{
    if let Address::Client(_) = from {
        return node_of(bytes);
    }
    match bytes {
        [b'c', rest @ ..] => client_end_of(rest),
        _ => Err(Stop::Left(bytes.len())),
    }
}
