ghost use Rattle.std.specs.Prelude.{◌≡◌, ◌++◌, IfOk, OnOk};
ghost use Rattle.dl_schedule.specs.StepLines.{bit_number, address_field, node_field, start_field};
ghost use Rattle.dl_schedule.specs.StepLines.{seek_words, other_words, step_line};
ghost use Rattle.dl_text.specs.Numbers.{number};
ghost use Rattle.dl_text.specs.Fields.{bytes_field};
ghost use Rattle.dl_schedule.specs.StepLines.{space, line_feed};

use crate::node::Node;
use crate::step::Step;
use crate::up_to::{BookieCount, DeviceStep};
use crate::words::{FirstWord, NodeWord, StartWord};
use dl_text::field::{put_bytes, put_place};
use dl_text::hex::put_hex;
use dl_text::number::put_number;
use dl_text::payloads::put_payloads;
use dl_text::word::Word;
use dl_types::address::Address;
use dl_types::bookie::BookieId;
use dl_types::client::ClientId;
use dl_types::memory::NoMemory;
use dl_types::name::Name;
use dl_types::start::Start;
use std::alloc::Global;

/// Puts the number of a client.
fn put_client(out: &mut Vec<u8>, end: u8, client: &ClientId) -> Result<(), NoMemory>
    ensures { OnOk result (out.new.items ≡ out.old.items ++ number end client.now) }
{
    put_number(out, end, u64::from(client.number()))
}

/// Puts the number of a bookie.
fn put_bookie(out: &mut Vec<u8>, end: u8, bookie: &BookieId) -> Result<(), NoMemory>
    ensures { OnOk result (out.new.items ≡ out.old.items ++ number end bookie.now) }
{
    put_number(out, end, u64::from(bookie.number()))
}

/// Puts a number of bookies.
fn put_count(out: &mut Vec<u8>, end: u8, count: &BookieCount) -> Result<(), NoMemory>
    ensures { OnOk result (out.new.items ≡ out.old.items ++ number end count.now) }
{
    put_number(out, end, count.number())
}

/// Puts a client and a stream, to the end of the line.
fn put_client_stream(out: &mut Vec<u8>, client: &ClientId, stream: &Name) -> Result<(), NoMemory>
    ensures { OnOk result
        (out.new.items ≡ out.old.items
        ++ (number space client.now ++ bytes_field line_feed stream.now)) }
{
    put_client(out, b' ', client)?;
    put_bytes(out, b'\n', stream.as_slice())
}

/// Puts a device call and whether its work is kept, to the end of the line.
fn put_call(out: &mut Vec<u8>, call: &DeviceStep, kept: bool) -> Result<(), NoMemory>
    ensures { OnOk result
        (out.new.items ≡ out.old.items
        ++ (number space call.now ++ number line_feed (bit_number kept))) }
{
    put_number(out, b' ', call.number())?;
    put_number(out, b'\n', if kept { 1 } else { 0 })
}

/// Puts an end of a link, and the byte `end` behind it.
fn put_address(out: &mut Vec<u8>, end: u8, address: &Address) -> Result<(), NoMemory>
    ensures { OnOk result (out.new.items ≡ out.old.items ++ address_field end address.now) }
{
    out.extend_from_slice(NodeWord::of(address).text())?;
    match address {
        Address::Client(client) => put_client(out, end, client),
        Address::Bookie(bookie) => put_bookie(out, end, bookie),
        Address::Meta => put_bytes(out, end, &[]),
    }
}

/// Puts a node, to the end of the line.
fn put_node(out: &mut Vec<u8>, node: &Node) -> Result<(), NoMemory>
    ensures { OnOk result (out.new.items ≡ out.old.items ++ node_field line_feed node.now) }
{
    match node {
        Node::Bookie(bookie) => put_address(out, b'\n', &Address::Bookie(*bookie)),
        Node::Meta => put_address(out, b'\n', &Address::Meta),
    }
}

/// Puts where a reader begins, to the end of the line.
fn put_start(out: &mut Vec<u8>, start: &Start) -> Result<(), NoMemory>
    ensures { OnOk result (out.new.items ≡ out.old.items ++ start_field start.now) }
{
    out.extend_from_slice(StartWord::of(start).text())?;
    match start {
        Start::Oldest => Ok(()),
        Start::Place(place) => put_place(out, b'\n', place.dlsn()),
        Start::Tx(txid) => put_number(out, b'\n', txid.number()),
    }
}

/// Puts a client, a stream and where its reader begins.
fn put_seek(
    out: &mut Vec<u8>,
    client: &ClientId,
    stream: &Name,
    start: &Start,
) -> Result<(), NoMemory>
    ensures { OnOk result
        (out.new.items ≡ out.old.items ++ seek_words client.now stream.now start.now) }
{
    put_client(out, b' ', client)?;
    put_bytes(out, b' ', stream.as_slice())?;
    put_start(out, start)
}

/// Puts a line behind its first word: one arm a form of line.
fn put_other_words(out: &mut Vec<u8>, step: &Step) -> Result<(), NoMemory>
    ensures { OnOk result (out.new.items ≡ out.old.items ++ other_words step.now) }
{
    match step {
        Step::Setup {
            bookies,
            ensemble,
            write_quorum,
            ack_quorum,
        } => {
            put_count(out, b' ', bookies)?;
            put_count(out, b' ', ensemble)?;
            put_count(out, b' ', write_quorum)?;
            put_count(out, b'\n', ack_quorum)
        }
        Step::Join { client } => put_client(out, b'\n', client),
        Step::Crash { client } => put_client(out, b'\n', client),
        Step::Expire { session } => put_number(out, b'\n', session.number()),
        Step::Create { client, stream } => put_client_stream(out, client, stream),
        Step::Remove { client, stream } => put_client_stream(out, client, stream),
        Step::Open { client, stream } => put_client_stream(out, client, stream),
        Step::Recover { client, stream } => put_client_stream(out, client, stream),
        Step::Purge { client, stream } => put_client_stream(out, client, stream),
        Step::Append {
            client,
            txid,
            payload,
        } => {
            put_client(out, b' ', client)?;
            put_number(out, b' ', txid.number())?;
            put_hex(out, b'\n', payload.as_slice())?;
            Ok(())
        }
        Step::Set {
            client,
            txid,
            payloads,
        } => {
            put_client(out, b' ', client)?;
            put_number(out, b' ', txid.number())?;
            put_payloads(out, payloads.as_slice())
        }
        Step::Flush { client } => put_client(out, b'\n', client),
        Step::Commit { client } => put_client(out, b'\n', client),
        Step::Close { client } => put_client(out, b'\n', client),
        Step::SeekOldest { client, stream } => put_seek(out, client, stream, &Start::Oldest),
        Step::SeekPlace {
            client,
            stream,
            place,
        } => put_seek(out, client, stream, &Start::Place(*place)),
        Step::SeekTxid {
            client,
            stream,
            txid,
        } => put_seek(out, client, stream, &Start::Tx(*txid)),
        Step::Read { client, count } => {
            put_client(out, b' ', client)?;
            put_number(out, b'\n', count.number())
        }
        Step::Truncate {
            client,
            stream,
            place,
        } => {
            put_client(out, b' ', client)?;
            put_bytes(out, b' ', stream.as_slice())?;
            put_place(out, b'\n', place.dlsn())
        }
        Step::Deliver { from, to, number } => {
            put_address(out, b' ', from)?;
            put_address(out, b' ', to)?;
            put_number(out, b'\n', number.number())
        }
        Step::Sync { bookie } => put_bookie(out, b'\n', bookie),
        Step::Lose { bookie } => put_bookie(out, b'\n', bookie),
        Step::Stop { bookie, call, kept } => {
            put_bookie(out, b' ', bookie)?;
            put_call(out, call, *kept)
        }
        Step::StopMeta {
            client,
            number,
            call,
            kept,
        } => {
            put_client(out, b' ', client)?;
            put_number(out, b' ', number.number())?;
            put_call(out, call, *kept)
        }
        Step::Kill { node } => put_node(out, node),
        Step::Up { node } => put_node(out, node),
        Step::Settle => Ok(()),
        Step::Mail => Ok(()),
    }
}

/// The one spelling of a step, with its line feed.
pub fn print_step(alloc: Global, step: &Step) -> Result<Vec<u8>, NoMemory>
    ensures { IfOk result (λ text. text.items ≡ step_line step.now) }
{
    let mut out = Vec::new(alloc);
    out.extend_from_slice(FirstWord::of(step).text())?;
    put_other_words(&mut out, step)?;
    Ok(out)
}
