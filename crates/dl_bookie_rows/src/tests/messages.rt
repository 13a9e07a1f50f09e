//! Messages of rows. They have the tag 7.

ghost use Rattle.dl_depot.specs.Memory.{view_by};
ghost use Rattle.dl_journal.specs.Settled.{Stands};

use super::world::World;
use bytes::Bytes;
use dl_msg::msg::Msg;
use dl_record::check::check_entry;
use dl_types::memory::NoMemory;
use std::alloc::Global;

/// The tag of the messages.
const TAG: u32 = 7;

/// An entry of one record, whose payload is its last byte: its item has 58 bytes.
const SMALL: [u8; 29] = [
    1, 0, 0, 1, 0, 0, 0, 21, 0, 0, 0, 0, 0, 0, 0, 0, 0, 0, 0, 0, 0, 0, 0, 0, 0, 0, 0, 1, 97,
];

/// How many bytes a great entry has: its item has 1,048,576, which are 256 pages.
const GREAT: usize = 1_048_547;

/// A great entry: two records whose payloads are zeros, of 1,040,384 bytes and the rest.
fn great(alloc: Global) -> Result<Vec<u8>, NoMemory> {
    let mut bytes = vec![in alloc; 0u8; GREAT]?;
    bytes[0] = 1;
    bytes[3] = 2;
    bytes[4..8].copy_from_slice(&(GREAT as u32 - 8).to_be_bytes());
    bytes[24..28].copy_from_slice(&1_040_384u32.to_be_bytes());
    bytes[1_040_415] = 1;
    bytes[1_040_428..1_040_432].copy_from_slice(&(GREAT as u32 - 1_040_432).to_be_bytes());
    Ok(bytes)
}

/// The entry of a word: the great one, or the small one whose payload is the word's first letter.
fn entry_of(alloc: Global, word: &str) -> Result<Bytes, NoMemory> {
    if word == "great" {
        return Ok(Bytes::copy_from_slice(alloc, &great(alloc)?)?);
    }
    let mut bytes = SMALL;
    bytes[28] = word.as_bytes().first().copied().unwrap_or(97);
    Ok(Bytes::copy_from_slice(alloc, &bytes)?)
}

/// An Add.
pub fn add(
    world: &mut World,
    out: &mut Vec<u8>,
    ledger: u64,
    entry: u64,
    count: u64,
    word: &str,
) -> Result<(), NoMemory>
    requires { Stands (view_by world.old.depot) world.old.node.journal }
    ensures { Stands (view_by world.new.depot) world.new.node.journal }
{
    let bytes = entry_of(world.alloc, word)?;
    if check_entry(&bytes).is_err() {
        return Ok(());
    }
    let msg = Msg::Add {
        ledger,
        entry,
        count,
        bytes,
    };
    let _looks = world.take(out, &msg)?;
    Ok(())
}

/// A Copy.
pub fn copy(
    world: &mut World,
    out: &mut Vec<u8>,
    ledger: u64,
    entry: u64,
    count: u64,
    word: &str,
) -> Result<(), NoMemory>
    requires { Stands (view_by world.old.depot) world.old.node.journal }
    ensures { Stands (view_by world.new.depot) world.new.node.journal }
{
    let bytes = entry_of(world.alloc, word)?;
    if check_entry(&bytes).is_err() {
        return Ok(());
    }
    let msg = Msg::Copy {
        tag: TAG,
        ledger,
        entry,
        count,
        bytes,
    };
    let _looks = world.take(out, &msg)?;
    Ok(())
}

/// A question for the greatest confirmed count, with a fence.
pub fn fence(world: &mut World, out: &mut Vec<u8>, ledger: u64) -> Result<(), NoMemory>
    requires { Stands (view_by world.old.depot) world.old.node.journal }
    ensures { Stands (view_by world.new.depot) world.new.node.journal }
{
    let msg = Msg::AskLac {
        tag: TAG,
        ledger,
        fence: true,
    };
    let _looks = world.take(out, &msg)?;
    Ok(())
}

/// The same question without a fence.
pub fn ask_lac(world: &mut World, out: &mut Vec<u8>, ledger: u64) -> Result<(), NoMemory>
    requires { Stands (view_by world.old.depot) world.old.node.journal }
    ensures { Stands (view_by world.new.depot) world.new.node.journal }
{
    let msg = Msg::AskLac {
        tag: TAG,
        ledger,
        fence: false,
    };
    if !world.take(out, &msg)? {
        return Ok(());
    }
    world.look(out, &msg)
}

/// A question for an entry.
pub fn ask(world: &mut World, out: &mut Vec<u8>, ledger: u64, entry: u64) -> Result<(), NoMemory>
    requires { Stands (view_by world.old.depot) world.old.node.journal }
    ensures { Stands (view_by world.new.depot) world.new.node.journal }
{
    let msg = Msg::AskEntry {
        tag: TAG,
        ledger,
        entry,
    };
    if !world.take(out, &msg)? {
        return Ok(());
    }
    world.look(out, &msg)
}
