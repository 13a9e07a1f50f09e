//! Messages, and what becomes of them, told as words.

use dl_bookie::look_fault::LookFault;
use dl_bookie::taken::Taken;
use dl_msg::msg::Msg;
use dl_msg::resource::Resource;
use dl_text::field::put_bytes;
use dl_text::number::put_number;
use dl_types::memory::NoMemory;

/// The words of what there is too little of, in the order of the tests.
const RESOURCES: [&str; 5] = ["pool", "index", "ledgers", "queue", "journal"];

/// Tells a word.
pub fn tell(out: &mut Vec<u8>, word: &str) -> Result<(), NoMemory> {
    put_bytes(out, b' ', word.as_bytes())
}

/// Tells a word and numbers.
pub fn tell_numbers(out: &mut Vec<u8>, word: &str, numbers: &[u64]) -> Result<(), NoMemory> {
    tell(out, word)?;
    for number in numbers {
        put_number(out, b' ', *number)?;
    }
    Ok(())
}

/// Tells whether a ledger is fenced.
pub fn tell_fenced(out: &mut Vec<u8>, fenced: bool) -> Result<(), NoMemory> {
    tell(out, if fenced { "fenced" } else { "open" })
}

/// Tells what there is too little of, and for what.
fn tell_full(out: &mut Vec<u8>, what: Resource, ledger: u64, entry: u64) -> Result<(), NoMemory> {
    tell(out, "full")?;
    let word = RESOURCES.get(what as usize).copied().unwrap_or("");
    tell_numbers(out, word, &[ledger, entry])
}

/// Tells a message that answers a question, with its tag first.
fn tell_answer(out: &mut Vec<u8>, msg: &Msg) -> Result<(), NoMemory> {
    match msg {
        Msg::LacIs {
            tag,
            ledger,
            fenced,
            count,
        } => {
            tell_numbers(out, "lac", &[u64::from(*tag), *ledger])?;
            tell_fenced(out, *fenced)?;
            put_number(out, b' ', *count)
        }
        Msg::EntryIs {
            tag,
            ledger,
            entry,
            bytes,
        } => {
            tell_numbers(out, "entry", &[u64::from(*tag), *ledger, *entry])?;
            let last = bytes.as_slice().last().copied().unwrap_or(0);
            tell_numbers(out, "of", &[bytes.len() as u64, u64::from(last)])
        }
        Msg::NoEntry {
            tag,
            ledger,
            entry,
            fenced,
        } => {
            tell_numbers(out, "none", &[u64::from(*tag), *ledger, *entry])?;
            tell_fenced(out, *fenced)
        }
        _ => tell(out, "other"),
    }
}

/// Tells a message.
pub fn tell_msg(out: &mut Vec<u8>, msg: &Msg) -> Result<(), NoMemory> {
    match msg {
        Msg::AddOk { ledger, entry } => tell_numbers(out, "added", &[*ledger, *entry]),
        Msg::AddFenced { ledger, entry } => tell_numbers(out, "fenced", &[*ledger, *entry]),
        Msg::CopyOk { tag, ledger, entry } => {
            tell_numbers(out, "copied", &[u64::from(*tag), *ledger, *entry])
        }
        Msg::Full {
            what,
            ledger,
            entry,
        } => tell_full(out, *what, *ledger, *entry),
        _ => tell_answer(out, msg),
    }
}

/// Tells what a node does with a message. It is true where the message is answered by a look.
pub fn tell_taken(out: &mut Vec<u8>, taken: &Taken) -> Result<bool, NoMemory> {
    match taken {
        Taken::Look => return Ok(true),
        Taken::Queued => tell(out, "queued")?,
        Taken::Answer(reply) => tell_msg(out, reply)?,
    }
    Ok(false)
}

/// Tells what a look gives.
pub fn tell_look(out: &mut Vec<u8>, look: &Result<Msg, LookFault>) -> Result<(), NoMemory> {
    match look {
        Ok(reply) => tell_msg(out, reply),
        Err(_) => tell(out, "fault"),
    }
}
