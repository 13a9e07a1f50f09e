//! A table of rows. A row is a line behind `> ` that says what is done, and lines with what is told of it: the requests that a task asks,
//! by what they failed, and how it ends. All rows of a table run on one store. A line is `ORDER STREAM ..` and its events, each behind
//! `; `; `end`: the client's session ends, and it has another; `other OPERATION`: another client's request runs; `look PATH` or
//! `list PATH`: what the tree has; or `#` and words that say nothing.

use super::orders::{go, interfere};
use super::spelling::{cut, number_of};
use super::telling::Told;
use super::world::{World, conf};
use dl_alloc::allocation::Allocation;
use dl_lock::lock::Lock;
use dl_namespace::make::Make;
use dl_namespace::remove::Remove;
use dl_text::field::put_bytes;
use dl_text::hex::put_hex;
use dl_text::number::put_number;
use dl_text::place::place_of;
use dl_trunc::purge::Purge;
use dl_trunc::truncate::Truncate;
use dl_types::dlsn::Dlsn;
use dl_types::memory::NoMemory;
use dl_types::name::Name;
use dl_types::path::Path;
use std::alloc::Global;
use std::test::Fail;

/// The line of the orders.
const LINE: u32 = 7;

/// An order to make a stream.
fn make(world: &mut World, told: &mut Told, stream: &Name, events: &str) -> Result<(), Fail> {
    let begun = Make::start(world.alloc, LINE, stream)?;
    go(world, told, begun, events)
}

/// An order to remove a stream.
fn remove(world: &mut World, told: &mut Told, stream: &Name, events: &str) -> Result<(), Fail> {
    let begun = Remove::start(world.alloc, LINE, stream)?;
    go(world, told, begun, events)
}

/// An order to take the lock of a stream.
fn lock(world: &mut World, told: &mut Told, stream: &Name, events: &str) -> Result<(), Fail> {
    let begun = Lock::start(world.alloc, LINE, stream)?;
    go(world, told, begun, events)
}

/// An order to allocate a ledger by the member of a path, with the ledger that was left and the version of `alloc`.
fn allocate(
    world: &mut World,
    told: &mut Told,
    stream: &Name,
    words: &str,
    events: &str,
) -> Result<(), Fail> {
    let (member, rest) = cut(words);
    let (old, version) = cut(rest);
    let member = Path::new(world.alloc, member.as_bytes())?;
    let (old, version) = (old.parse().ok(), number_of(version));
    let begun = Allocation::start(world.alloc, LINE, stream, &member, old, version, conf())?;
    go(world, told, begun, events)
}

/// The place of a word.
fn place(alloc: Global, word: &str) -> Result<Dlsn, Fail> {
    let mut text = String::from_str(alloc, word)?;
    text.push('\n')?;
    let (place, _rest) = place_of(1, b'\n', text.as_bytes())?;
    Ok(place)
}

/// An order to move the point of a stream up to the place of a word.
fn truncate(
    world: &mut World,
    told: &mut Told,
    stream: &Name,
    word: &str,
    events: &str,
) -> Result<(), Fail> {
    let place = place(world.alloc, word)?;
    let begun = Truncate::start(world.alloc, LINE, stream, place)?;
    go(world, told, begun, events)
}

/// An order to delete the segments below the point of a stream.
fn purge(world: &mut World, told: &mut Told, stream: &Name, events: &str) -> Result<(), Fail> {
    let begun = Purge::start(world.alloc, LINE, stream)?;
    go(world, told, begun, events)
}

/// An order on a stream, with the words behind it.
fn order(
    world: &mut World,
    told: &mut Told,
    verb: &str,
    stream: &Name,
    words: &str,
    events: &str,
) -> Result<(), Fail> {
    match verb {
        "make" => make(world, told, stream, events),
        "remove" => remove(world, told, stream, events),
        "lock" => lock(world, told, stream, events),
        "allocate" => allocate(world, told, stream, words, events),
        "truncate" => truncate(world, told, stream, words, events),
        "purge" => purge(world, told, stream, events),
        _ => Err(Fail::from("no such line")),
    }
}

/// A line with an order and its events.
fn order_line(world: &mut World, told: &mut Told, verb: &str, rest: &str) -> Result<(), Fail> {
    let (rest, events) = rest.split_once("; ").unwrap_or((rest, ""));
    let (stream, words) = cut(rest);
    let stream = Name::new(world.alloc, stream.as_bytes())?;
    order(world, told, verb, &stream, words, events)
}

/// Tells the bytes and the version of a node.
fn look(world: &mut World, told: &mut Told, path: &str) -> Result<(), Fail> {
    let path = Path::new(world.alloc, path.as_bytes())?;
    let store = world.store()?;
    match store.tree().look(&path) {
        Some(node) => {
            put_hex(&mut told.out, b' ', node.bytes)?;
            put_number(&mut told.out, b'\n', node.version)?;
        }
        None => put_bytes(&mut told.out, b'\n', b"none")?,
    }
    Ok(())
}

/// Tells names, a line each.
fn tell_names(told: &mut Told, names: &[Path]) -> Result<(), NoMemory> {
    for name in names {
        put_bytes(&mut told.out, b'\n', name.as_slice())?;
    }
    Ok(())
}

/// Tells the names of a node's children.
fn list(world: &mut World, told: &mut Told, path: &str) -> Result<(), Fail> {
    let path = Path::new(world.alloc, path.as_bytes())?;
    let store = world.store()?;
    if let Some(names) = store.tree().children(world.alloc, &path)? {
        tell_names(told, names.as_slice())?;
    }
    Ok(())
}

/// Does what a line says.
fn do_line(world: &mut World, told: &mut Told, line: &str) -> Result<(), Fail> {
    let (verb, rest) = cut(line);
    match verb {
        "#" => Ok(()),
        "end" => world.begin_anew(),
        "other" => interfere(world, told, rest),
        "look" => look(world, told, rest),
        "list" => list(world, told, rest),
        _ => order_line(world, told, verb, rest),
    }
}

/// Whether a row is told as it says.
fn row_holds(world: &mut World, row: &str) -> Result<bool, Fail> {
    let (line, wanted) = row.split_once('\n').unwrap_or((row, ""));
    let mut told = Told::new(world.alloc);
    do_line(world, &mut told, line)?;
    Ok(told.out.as_slice() == wanted.as_bytes())
}

/// The place of the first row that isn't told as it says.
pub fn first_wrong(alloc: Global, table: &str) -> Result<Option<usize>, Fail> {
    let mut world = World::new(alloc)?;
    for (place, row) in table.split("> ").enumerate() {
        if !row.is_empty() && !row_holds(&mut world, row)? {
            return Ok(Some(place));
        }
    }
    Ok(None)
}
