ghost use Rattle.std.specs.Prelude.{◌≡◌, ◌≤◌, ℕ, IfOk};
ghost use Rattle.dl_types.specs.declared.client.TheConstants.{MAX_CLIENT};
ghost use Rattle.dl_text.specs.Readers.{Gives, then_at};
ghost use Rattle.dl_text.specs.NameFields.{IsName, name_at};
ghost use Rattle.dl_schedule.specs.declared.step.Step.TheVariants as step;
ghost use Rattle.dl_schedule.specs.StepLines.{space, line_feed};
ghost use Rattle.dl_schedule.specs.StepReading.{client_at, one_client, client_stream, one_bookie};
ghost use Rattle.dl_schedule.specs.StepReading.{one_node, seek_step, setup_at, expire_at};
ghost use Rattle.dl_schedule.specs.StepReading.{append_at, set_at, seek_at, read_at, truncate_at};
ghost use Rattle.dl_schedule.specs.StepReading.{deliver_at, stop_at, stop_meta_at};

use crate::field::{
    address_of, bookie_of, call_of, client_of, count_of, name_from, node_of, other_end_of, start_of,
};
use crate::step::{MAX_SET, Step};
use crate::up_to::{BookieCount, DeviceStep, MAX_MESSAGE, MAX_ROWS, MessageNumber, RowCount};
use crate::words::NodeWord;
use dl_text::hex::hex_of;
use dl_text::name::name_of;
use dl_text::number::number_of;
use dl_text::payloads::payloads_of;
use dl_text::place::place_of;
use dl_text::stop::Stop;
use dl_types::bookie::BookieId;
use dl_types::client::ClientId;
use dl_types::payload::Payload;
use dl_types::payloads::Payloads;
use dl_types::place::Place;
use dl_types::session::SessionId;
use dl_types::start::Start;
use dl_types::txid::{MAX_TXID, TxId};
use std::alloc::Global;

/// `setup B E W A`, behind its first word.
pub fn setup_of(bytes: &[u8]) -> Result<(Step, &[u8]), Stop>
    ensures { Gives (λ x. (x.0, x.1.now)) result (setup_at bytes.now) }
{
    let (bookies, rest) = count_of(b' ', bytes)?;
    let (ensemble, rest) = count_of(b' ', rest)?;
    let (write_quorum, rest) = count_of(b' ', rest)?;
    let (ack_quorum, rest) = count_of(b'\n', rest)?;
    let step = Step::Setup {
        bookies: BookieCount::new(bookies),
        ensemble: BookieCount::new(ensemble),
        write_quorum: BookieCount::new(write_quorum),
        ack_quorum: BookieCount::new(ack_quorum),
    };
    Ok((step, rest))
}

/// `join C`, behind its first word.
pub fn join_of(bytes: &[u8]) -> Result<(Step, &[u8]), Stop>
    ensures { Gives (λ x. (x.0, x.1.now)) result (one_client step.Join bytes.now) }
{
    let (client, rest) = client_of(b'\n', bytes)?;
    let client = ClientId::new(client);
    Ok((Step::Join { client }, rest))
}

/// `crash C`, behind its first word.
pub fn crash_of(bytes: &[u8]) -> Result<(Step, &[u8]), Stop>
    ensures { Gives (λ x. (x.0, x.1.now)) result (one_client step.Crash bytes.now) }
{
    let (client, rest) = client_of(b'\n', bytes)?;
    let client = ClientId::new(client);
    Ok((Step::Crash { client }, rest))
}

/// `flush C`, behind its first word.
pub fn flush_of(bytes: &[u8]) -> Result<(Step, &[u8]), Stop>
    ensures { Gives (λ x. (x.0, x.1.now)) result (one_client step.Flush bytes.now) }
{
    let (client, rest) = client_of(b'\n', bytes)?;
    let client = ClientId::new(client);
    Ok((Step::Flush { client }, rest))
}

/// `commit C`, behind its first word.
pub fn commit_of(bytes: &[u8]) -> Result<(Step, &[u8]), Stop>
    ensures { Gives (λ x. (x.0, x.1.now)) result (one_client step.Commit bytes.now) }
{
    let (client, rest) = client_of(b'\n', bytes)?;
    let client = ClientId::new(client);
    Ok((Step::Commit { client }, rest))
}

/// `close C`, behind its first word.
pub fn close_of(bytes: &[u8]) -> Result<(Step, &[u8]), Stop>
    ensures { Gives (λ x. (x.0, x.1.now)) result (one_client step.Close bytes.now) }
{
    let (client, rest) = client_of(b'\n', bytes)?;
    let client = ClientId::new(client);
    Ok((Step::Close { client }, rest))
}

/// `expire K`, behind its first word.
pub fn expire_of(bytes: &[u8]) -> Result<(Step, &[u8]), Stop>
    ensures { Gives (λ x. (x.0, x.1.now)) result (expire_at bytes.now) }
{
    let (session, rest) = number_of(1, u64::MAX, b'\n', bytes)?;
    let session = SessionId::new(session);
    Ok((Step::Expire { session }, rest))
}

/// A client and a stream, to the end of the line.
fn client_stream_of(bytes: &[u8]) -> Result<((u16, &[u8]), &[u8]), Stop>
    ensures exact { Gives (λ x. ((x.0.0, x.0.1.now), x.1.now)) result
        (then_at (client_at space) (λ c. name_at line_feed) bytes.now) }
    ensures client { IfOk result (λ x. x.0.0 ≤ MAX_CLIENT) }
    ensures stream { IfOk result (λ x. IsName x.0.1.now) }
{
    let (client, rest) = client_of(b' ', bytes)?;
    let (stream, rest) = name_of(b'\n', rest)?;
    Ok(((client, stream), rest))
}

/// `create C S`, behind its first word.
pub fn create_of(alloc: Global, bytes: &[u8]) -> Result<(Step, &[u8]), Stop>
    ensures { Gives (λ x. (x.0, x.1.now)) result (client_stream step.Create bytes.now) }
{
    let ((client, stream), rest) = client_stream_of(bytes)?;
    let stream = name_from(alloc, stream)?;
    let client = ClientId::new(client);
    Ok((Step::Create { client, stream }, rest))
}

/// `remove C S`, behind its first word.
pub fn remove_of(alloc: Global, bytes: &[u8]) -> Result<(Step, &[u8]), Stop>
    ensures { Gives (λ x. (x.0, x.1.now)) result (client_stream step.Remove bytes.now) }
{
    let ((client, stream), rest) = client_stream_of(bytes)?;
    let stream = name_from(alloc, stream)?;
    let client = ClientId::new(client);
    Ok((Step::Remove { client, stream }, rest))
}

/// `open C S`, behind its first word.
pub fn open_of(alloc: Global, bytes: &[u8]) -> Result<(Step, &[u8]), Stop>
    ensures { Gives (λ x. (x.0, x.1.now)) result (client_stream step.Open bytes.now) }
{
    let ((client, stream), rest) = client_stream_of(bytes)?;
    let stream = name_from(alloc, stream)?;
    let client = ClientId::new(client);
    Ok((Step::Open { client, stream }, rest))
}

/// `recover C S`, behind its first word.
pub fn recover_of(alloc: Global, bytes: &[u8]) -> Result<(Step, &[u8]), Stop>
    ensures { Gives (λ x. (x.0, x.1.now)) result (client_stream step.Recover bytes.now) }
{
    let ((client, stream), rest) = client_stream_of(bytes)?;
    let stream = name_from(alloc, stream)?;
    let client = ClientId::new(client);
    Ok((Step::Recover { client, stream }, rest))
}

/// `purge C S`, behind its first word.
pub fn purge_of(alloc: Global, bytes: &[u8]) -> Result<(Step, &[u8]), Stop>
    ensures { Gives (λ x. (x.0, x.1.now)) result (client_stream step.Purge bytes.now) }
{
    let ((client, stream), rest) = client_stream_of(bytes)?;
    let stream = name_from(alloc, stream)?;
    let client = ClientId::new(client);
    Ok((Step::Purge { client, stream }, rest))
}

/// `append C T P`, behind its first word.
pub fn append_of(alloc: Global, bytes: &[u8]) -> Result<(Step, &[u8]), Stop>
    ensures { Gives (λ x. (x.0, x.1.now)) result (append_at bytes.now) }
{
    let (client, rest) = client_of(b' ', bytes)?;
    let (txid, rest) = number_of(0, MAX_TXID, b' ', rest)?;
    let (payload, rest) = hex_of(alloc, b'\n', rest)?;
    let payload = Payload::from_vec(payload)?;
    let client = ClientId::new(client);
    let txid = TxId::new(txid);
    Ok((
        Step::Append {
            client,
            txid,
            payload,
        },
        rest,
    ))
}

/// `set C T P P P`, behind its first word.
pub fn set_of(alloc: Global, bytes: &[u8]) -> Result<(Step, &[u8]), Stop>
    ensures { Gives (λ x. (x.0, x.1.now)) result (set_at bytes.now) }
{
    let (client, rest) = client_of(b' ', bytes)?;
    let (txid, rest) = number_of(0, MAX_TXID, b' ', rest)?;
    let (payloads, rest) = payloads_of(alloc, u64::from(MAX_SET - 1), rest)?;
    let payloads = Payloads::from_vec(payloads);
    let client = ClientId::new(client);
    let txid = TxId::new(txid);
    Ok((
        Step::Set {
            client,
            txid,
            payloads,
        },
        rest,
    ))
}

/// `seek C S oldest`, `seek C S dlsn D` or `seek C S txid T`, behind its first word.
pub fn seek_of(alloc: Global, bytes: &[u8]) -> Result<(Step, &[u8]), Stop>
    ensures { Gives (λ x. (x.0, x.1.now)) result (seek_at bytes.now) }
{
    let (client, rest) = client_of(b' ', bytes)?;
    let (stream, rest) = name_of(b' ', rest)?;
    let (start, rest) = match start_of(rest) {
        Ok(found) => found,
        Err(stop) => return Err(stop),
    };
    let stream = name_from(alloc, stream)?;
    let client = ClientId::new(client);
    let step = match start {
        Start::Oldest => Step::SeekOldest { client, stream },
        Start::Place(place) => Step::SeekPlace {
            client,
            stream,
            place,
        },
        Start::Tx(txid) => Step::SeekTxid {
            client,
            stream,
            txid,
        },
    };
    Ok((step, rest))
}

/// `read C N`, behind its first word.
pub fn read_of(bytes: &[u8]) -> Result<(Step, &[u8]), Stop>
    ensures { Gives (λ x. (x.0, x.1.now)) result (read_at bytes.now) }
{
    let (client, rest) = client_of(b' ', bytes)?;
    let (count, rest) = number_of(1, MAX_ROWS, b'\n', rest)?;
    let client = ClientId::new(client);
    let count = RowCount::new(count);
    Ok((Step::Read { client, count }, rest))
}

/// `truncate C S D`, behind its first word.
pub fn truncate_of(alloc: Global, bytes: &[u8]) -> Result<(Step, &[u8]), Stop>
    ensures { Gives (λ x. (x.0, x.1.now)) result (truncate_at bytes.now) }
{
    let (client, rest) = client_of(b' ', bytes)?;
    let (stream, rest) = name_of(b' ', rest)?;
    let (place, rest) = place_of(1, b'\n', rest)?;
    let stream = name_from(alloc, stream)?;
    let client = ClientId::new(client);
    let place = Place::new(place);
    Ok((
        Step::Truncate {
            client,
            stream,
            place,
        },
        rest,
    ))
}

/// `deliver F G N`, behind its first word.
pub fn deliver_of(bytes: &[u8]) -> Result<(Step, &[u8]), Stop>
    ensures { Gives (λ x. (x.0, x.1.now)) result (deliver_at bytes.now) }
{
    let (from, rest) = match address_of(b' ', &NodeWord::ALL, bytes) {
        Ok(found) => found,
        Err(stop) => return Err(stop),
    };
    let (to, rest) = match other_end_of(&from, rest) {
        Ok(found) => found,
        Err(stop) => return Err(stop),
    };
    let (number, rest) = number_of(1, MAX_MESSAGE, b'\n', rest)?;
    let number = MessageNumber::new(number);
    Ok((Step::Deliver { from, to, number }, rest))
}

/// `sync B`, behind its first word.
pub fn sync_of(bytes: &[u8]) -> Result<(Step, &[u8]), Stop>
    ensures { Gives (λ x. (x.0, x.1.now)) result (one_bookie step.Sync bytes.now) }
{
    let (bookie, rest) = bookie_of(b'\n', bytes)?;
    let bookie = BookieId::new(bookie);
    Ok((Step::Sync { bookie }, rest))
}

/// `lose B`, behind its first word.
pub fn lose_of(bytes: &[u8]) -> Result<(Step, &[u8]), Stop>
    ensures { Gives (λ x. (x.0, x.1.now)) result (one_bookie step.Lose bytes.now) }
{
    let (bookie, rest) = bookie_of(b'\n', bytes)?;
    let bookie = BookieId::new(bookie);
    Ok((Step::Lose { bookie }, rest))
}

/// `stop B K O`, behind its first word.
pub fn stop_of(bytes: &[u8]) -> Result<(Step, &[u8]), Stop>
    ensures { Gives (λ x. (x.0, x.1.now)) result (stop_at bytes.now) }
{
    let (bookie, rest) = bookie_of(b' ', bytes)?;
    let ((call, kept), rest) = call_of(rest)?;
    let bookie = BookieId::new(bookie);
    let call = DeviceStep::new(call);
    Ok((Step::Stop { bookie, call, kept }, rest))
}

/// `stopmeta C N K O`, behind its first word.
pub fn stop_meta_of(bytes: &[u8]) -> Result<(Step, &[u8]), Stop>
    ensures { Gives (λ x. (x.0, x.1.now)) result (stop_meta_at bytes.now) }
{
    let (client, rest) = client_of(b' ', bytes)?;
    let (number, rest) = number_of(1, MAX_MESSAGE, b' ', rest)?;
    let ((call, kept), rest) = call_of(rest)?;
    let client = ClientId::new(client);
    let number = MessageNumber::new(number);
    let call = DeviceStep::new(call);
    Ok((
        Step::StopMeta {
            client,
            number,
            call,
            kept,
        },
        rest,
    ))
}

/// `kill X`, behind its first word.
pub fn kill_of(bytes: &[u8]) -> Result<(Step, &[u8]), Stop>
    ensures { Gives (λ x. (x.0, x.1.now)) result (one_node step.Kill bytes.now) }
{
    match node_of(bytes) {
        Ok((node, rest)) => Ok((Step::Kill { node }, rest)),
        Err(stop) => Err(stop),
    }
}

/// `up X`, behind its first word.
pub fn up_of(bytes: &[u8]) -> Result<(Step, &[u8]), Stop>
    ensures { Gives (λ x. (x.0, x.1.now)) result (one_node step.Up bytes.now) }
{
    match node_of(bytes) {
        Ok((node, rest)) => Ok((Step::Up { node }, rest)),
        Err(stop) => Err(stop),
    }
}
