ghost use Rattle.std.specs.Prelude.{◌≡◌, ◌<◌, ◌≤◌, IfOk, IfErr, codes};
ghost use Rattle.dl_types.specs.declared.client.TheConstants.{MAX_CLIENT};
ghost use Rattle.dl_text.specs.Readers.{Gives};
ghost use Rattle.dl_schedule.specs.declared.step.Step.{Step};
ghost use Rattle.dl_schedule.specs.StepLines.{step_line};
ghost use Rattle.dl_schedule.specs.EarlyLines.{opening_step, opening_at, IsEarly};
ghost use Rattle.dl_schedule.specs.EarlyReading.{only_client_at, free_append_at};
ghost use Rattle.dl_schedule.specs.EarlyReading.{free_flush_at, free_rest_at, free_at};
ghost use Rattle.dl_schedule.specs.EarlyReading.{fixed_at, said_at, early_at};
ghost use Rattle.dl_schedule.specs.Faults.{IsBadAt, ReadsAs, Parses, parsed_early};

use crate::opening::Opening;
use crate::step::Step;
use crate::up_to::BookieCount;
use crate::words::FirstWord;
use dl_text::hex::hex_of;
use dl_text::number::number_of;
use dl_text::stop::Stop;
use dl_text::word::word_at;
use dl_types::client::ClientId;
use dl_types::line_fault::LineFault;
use dl_types::memory::NoMemory;
use dl_types::name::Name;
use dl_types::payload::Payload;
use dl_types::txid::{MAX_TXID, TxId};
use std::alloc::Global;

/// The first words of free lines.
const FREE: [FirstWord; 3] = [FirstWord::Append, FirstWord::Flush, FirstWord::Settle];

/// The number of a client: 0, the one that early schedules have.
fn client_of(end: u8, bytes: &[u8]) -> Result<(u16, &[u8]), Stop>
    requires { end < 48 }
    ensures exact { Gives (λ x. (x.0, x.1.now)) result (only_client_at end bytes.now) }
    ensures within { IfOk result (λ x. x.0 ≤ MAX_CLIENT) }
{
    let (client, rest) = number_of(0, 0, end, bytes)?;
    Ok((client as u16, rest))
}

fn append_of(alloc: Global, bytes: &[u8]) -> Result<(Step, &[u8]), Stop>
    ensures { Gives (λ x. (x.0, x.1.now)) result (free_append_at bytes.now) }
{
    let (client, rest) = client_of(b' ', bytes)?;
    let (txid, rest) = number_of(0, MAX_TXID, b' ', rest)?;
    let (payload, rest) = hex_of(alloc, b'\n', rest)?;
    let payload = Payload::from_vec(payload)?;
    let client = ClientId::new(client);
    let txid = TxId::new(txid);
    Ok((
        Step::Append {
            client,
            txid,
            payload,
        },
        rest,
    ))
}

fn flush_of(bytes: &[u8]) -> Result<(Step, &[u8]), Stop>
    ensures { Gives (λ x. (x.0, x.1.now)) result (free_flush_at bytes.now) }
{
    let (client, rest) = client_of(b'\n', bytes)?;
    let client = ClientId::new(client);
    Ok((Step::Flush { client }, rest))
}

/// A free line behind its first word.
fn rest_of(alloc: Global, word: FirstWord, bytes: &[u8]) -> Result<(Step, &[u8]), Stop>
    ensures { Gives (λ x. (x.0, x.1.now)) result (free_rest_at word bytes.now) }
{
    match word {
        FirstWord::Append => append_of(alloc, bytes),
        FirstWord::Flush => flush_of(bytes),
        _ => Ok((Step::Settle, bytes)),
    }
}

fn free_of(alloc: Global, bytes: &[u8]) -> Result<(Step, &[u8]), Stop>
    ensures { Gives (λ x. (x.0, x.1.now)) result (free_at bytes.now) }
{
    let (word, rest) = word_at(&FREE, bytes)?;
    rest_of(alloc, word, rest)
}

/// The name of the stream of early schedules, `s`. It is a name, so that only want of memory refuses it.
fn stream_name(alloc: Global) -> Result<Name, NoMemory>
    ensures { IfOk result (λ name. name ≡ codes "s") }
{
    match Name::new(alloc, b"s") {
        Ok(name) => Ok(name),
        Err(_) => Err(NoMemory),
    }
}

/// The step of an opening line.
fn opening_step(alloc: Global, opening: Opening) -> Result<Step, NoMemory>
    ensures { IfOk result (λ step. step ≡ opening_step opening) }
{
    let client = ClientId::new(0);
    match opening {
        Opening::Setup => Ok(Step::Setup {
            bookies: BookieCount::new(3),
            ensemble: BookieCount::new(3),
            write_quorum: BookieCount::new(3),
            ack_quorum: BookieCount::new(2),
        }),
        Opening::Join => Ok(Step::Join { client }),
        Opening::Create => {
            let stream = stream_name(alloc)?;
            Ok(Step::Create { client, stream })
        }
        Opening::Open => {
            let stream = stream_name(alloc)?;
            Ok(Step::Open { client, stream })
        }
        Opening::Settle => Ok(Step::Settle),
    }
}

fn fixed_of(alloc: Global, opening: Opening, bytes: &[u8]) -> Result<(Step, &[u8]), Stop>
    ensures { Gives (λ x. (x.0, x.1.now)) result (fixed_at opening bytes.now) }
{
    let (found, rest) = word_at(&[opening], bytes)?;
    let step = opening_step(alloc, found)?;
    Ok((step, rest))
}

/// The opening line that the line of this number is.
fn opening_at(number: u32) -> Option<Opening>
    ensures { result ≡ opening_at number }
{
    match number {
        1 => Some(Opening::Setup),
        2 => Some(Opening::Join),
        3 => Some(Opening::Create),
        4 | 6 => Some(Opening::Settle),
        5 => Some(Opening::Open),
        _ => None,
    }
}

fn said_of(alloc: Global, number: u32, bytes: &[u8]) -> Result<(Step, &[u8]), Stop>
    ensures { Gives (λ x. (x.0, x.1.now)) result (said_at (opening_at number) bytes.now) }
{
    match opening_at(number) {
        Some(opening) => fixed_of(alloc, opening, bytes),
        None => free_of(alloc, bytes),
    }
}

fn early_of(alloc: Global, number: u32, line: &[u8]) -> Result<Step, Stop>
    ensures { Gives (λ x. x) result (early_at number line.now) }
{
    let (step, rest) = said_of(alloc, number, line)?;
    if rest.is_empty() {
        Ok(step)
    } else {
        Err(Stop::Left(rest.len()))
    }
}

/// The step that a line of an early schedule says. The line is given with its line feed, and `number` is its place in
/// the schedule, from 1. Lines 1 to 6 set up three bookies, join client 0, create the stream `s`, settle, open it and
/// settle; every other line is an append or a flush of client 0 or a settle. `BadLine` names the column where no such
/// line goes on, and `NoMemory` says nothing of the line.
pub fn parse_early(alloc: Global, number: u32, line: &[u8]) -> Result<Step, LineFault>
    // What is read is a step that this line may say, and spelt so.
    ensures found { IfOk result (λ s. IsEarly number s × (line.now ≡ step_line s)) }
    // What is spelt so is read as that step, unless memory runs out.
    ensures only { (s : Step) → IsEarly number s → line.now ≡ step_line s → ReadsAs s result }
    // Up to the column some line goes on as this one does, and none goes on further.
    ensures column { IfErr result (IsBadAt (IsEarly number) line.now) }
    ensures exact { Parses result (parsed_early number line.now) }
{
    match early_of(alloc, number, line) {
        Ok(step) => Ok(step),
        Err(Stop::NoMemory) => Err(LineFault::NoMemory),
        Err(Stop::Left(left)) => Err(LineFault::BadLine {
            column: (line.len() - left) as u64 + 1,
        }),
    }
}
