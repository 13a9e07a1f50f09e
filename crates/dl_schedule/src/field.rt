ghost use Rattle.std.specs.Prelude.{◌≡◌, ◌<◌, ◌≤◌, IfOk};
ghost use Rattle.dl_types.specs.declared.bookie.TheConstants.{MAX_BOOKIE};
ghost use Rattle.dl_types.specs.declared.client.TheConstants.{MAX_CLIENT};
ghost use Rattle.dl_text.specs.Readers.{Gives};
ghost use Rattle.dl_text.specs.NameFields.{IsName};
ghost use Rattle.dl_schedule.specs.declared.up_to.TheConstants.{MAX_BOOKIES, COMMIT_CALLS};
ghost use Rattle.dl_schedule.specs.StepLines.{space};
ghost use Rattle.dl_schedule.specs.StepReading.{client_at, bookie_at, count_at};
ghost use Rattle.dl_schedule.specs.StepReading.{call_at, address_rest_at};
ghost use Rattle.dl_schedule.specs.StepReading.{address_at, other_letters};
ghost use Rattle.dl_schedule.specs.StepReading.{node_of, node_at, start_rest_at, start_at};

use crate::node::Node;
use crate::up_to::{COMMIT_CALLS, MAX_BOOKIES};
use crate::words::{NodeWord, StartWord};
use dl_text::hex::end_of;
use dl_text::number::number_of;
use dl_text::place::place_of;
use dl_text::stop::Stop;
use dl_text::word::word_at;
use dl_types::address::Address;
use dl_types::bookie::{BookieId, MAX_BOOKIE};
use dl_types::client::{ClientId, MAX_CLIENT};
use dl_types::memory::NoMemory;
use dl_types::name::Name;
use dl_types::place::Place;
use dl_types::start::Start;
use dl_types::txid::{MAX_TXID, TxId};
use std::alloc::Global;

/// The number of a client.
pub fn client_of(end: u8, bytes: &[u8]) -> Result<(u16, &[u8]), Stop>
    requires { end < 48 }
    ensures exact { Gives (λ x. (x.0, x.1.now)) result (client_at end bytes.now) }
    ensures within { IfOk result (λ x. x.0 ≤ MAX_CLIENT) }
{
    let (client, rest) = number_of(0, u64::from(MAX_CLIENT), end, bytes)?;
    Ok((client as u16, rest))
}

/// The number of a bookie.
pub fn bookie_of(end: u8, bytes: &[u8]) -> Result<(u8, &[u8]), Stop>
    requires { end < 48 }
    ensures exact { Gives (λ x. (x.0, x.1.now)) result (bookie_at end bytes.now) }
    ensures within { IfOk result (λ x. x.0 ≤ MAX_BOOKIE) }
{
    let (bookie, rest) = number_of(0, u64::from(MAX_BOOKIE), end, bytes)?;
    Ok((bookie as u8, rest))
}

/// A number of bookies.
pub fn count_of(end: u8, bytes: &[u8]) -> Result<(u64, &[u8]), Stop>
    requires { end < 48 }
    ensures exact { Gives (λ x. (x.0, x.1.now)) result (count_at end bytes.now) }
    ensures some { IfOk result (λ x. 1 ≤ x.0) }
    ensures most { IfOk result (λ x. x.0 ≤ MAX_BOOKIES) }
{
    number_of(1, MAX_BOOKIES, end, bytes)
}

/// The name of these bytes. They are a name, so that only want of memory refuses it.
pub fn name_from(alloc: Global, bytes: &[u8]) -> Result<Name, NoMemory>
    requires { IsName bytes.now }
    ensures { IfOk result (λ name. name ≡ bytes.now) }
{
    match Name::new(alloc, bytes) {
        Ok(name) => Ok(name),
        Err(_) => Err(NoMemory),
    }
}

/// A device call of a commit and whether its work is kept, to the end of the line.
pub fn call_of(bytes: &[u8]) -> Result<((u64, bool), &[u8]), Stop>
    ensures exact { Gives (λ x. (x.0, x.1.now)) result (call_at bytes.now) }
    ensures some { IfOk result (λ x. 1 ≤ x.0.0) }
    ensures most { IfOk result (λ x. x.0.0 ≤ COMMIT_CALLS) }
{
    let (call, rest) = number_of(1, COMMIT_CALLS, b' ', bytes)?;
    let (bit, rest) = number_of(0, 1, b'\n', rest)?;
    Ok(((call, bit == 1), rest))
}

/// An address behind its letter.
fn address_rest_of(end: u8, letter: NodeWord, bytes: &[u8]) -> Result<(Address, &[u8]), Stop>
    requires { end < 48 }
    ensures { Gives (λ x. (x.0, x.1.now)) result (address_rest_at end letter bytes.now) }
{
    match letter {
        NodeWord::Client => {
            let (client, rest) = client_of(end, bytes)?;
            Ok((Address::Client(ClientId::new(client)), rest))
        }
        NodeWord::Bookie => {
            let (bookie, rest) = bookie_of(end, bytes)?;
            Ok((Address::Bookie(BookieId::new(bookie)), rest))
        }
        NodeWord::Meta => {
            let rest = end_of(end, bytes)?;
            Ok((Address::Meta, rest))
        }
    }
}

/// An address that begins with one of these letters.
pub fn address_of<'a>(
    end: u8,
    letters: &[NodeWord],
    bytes: &'a [u8],
) -> Result<(Address, &'a [u8]), Stop>
    requires { end < 48 }
    ensures { Gives (λ x. (x.0, x.1.now)) result (address_at end letters.now bytes.now) }
{
    let (letter, rest) = word_at(letters, bytes)?;
    address_rest_of(end, letter, rest)
}

/// The other end of a link: a node where this end is a client, and a client where it is a node.
pub fn other_end_of<'a>(from: &Address, bytes: &'a [u8]) -> Result<(Address, &'a [u8]), Stop>
    ensures { Gives (λ x. (x.0, x.1.now)) result
        (address_at space (other_letters from.now) bytes.now) }
{
    match from {
        Address::Client(_) => address_of(b' ', &NodeWord::NODES, bytes),
        Address::Bookie(_) => address_of(b' ', &[NodeWord::Client], bytes),
        Address::Meta => address_of(b' ', &[NodeWord::Client], bytes),
    }
}

/// The node at an address that is no client's.
fn node_from(address: Address) -> Node
    ensures { result ≡ node_of address }
{
    match address {
        Address::Bookie(bookie) => Node::Bookie(bookie),
        Address::Client(_) => Node::Meta,
        Address::Meta => Node::Meta,
    }
}

/// A node, to the end of the line.
pub fn node_of(bytes: &[u8]) -> Result<(Node, &[u8]), Stop>
    ensures { Gives (λ x. (x.0, x.1.now)) result (node_at bytes.now) }
{
    match address_of(b'\n', &NodeWord::NODES, bytes) {
        Ok((address, rest)) => Ok((node_from(address), rest)),
        Err(stop) => Err(stop),
    }
}

/// Where a reader begins, behind the word that says how.
fn start_rest_of(word: StartWord, bytes: &[u8]) -> Result<(Start, &[u8]), Stop>
    ensures { Gives (λ x. (x.0, x.1.now)) result (start_rest_at word bytes.now) }
{
    match word {
        StartWord::Oldest => Ok((Start::Oldest, bytes)),
        StartWord::Place => {
            let (place, rest) = place_of(1, b'\n', bytes)?;
            Ok((Start::Place(Place::new(place)), rest))
        }
        StartWord::Txid => {
            let (txid, rest) = number_of(0, MAX_TXID, b'\n', bytes)?;
            Ok((Start::Tx(TxId::new(txid)), rest))
        }
    }
}

/// Where a reader begins, to the end of the line.
pub fn start_of(bytes: &[u8]) -> Result<(Start, &[u8]), Stop>
    ensures { Gives (λ x. (x.0, x.1.now)) result (start_at bytes.now) }
{
    let (word, rest) = word_at(&StartWord::ALL, bytes)?;
    start_rest_of(word, rest)
}
