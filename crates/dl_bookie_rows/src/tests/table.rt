//! A table of rows, each a line `WHAT IS DONE => WHAT IS TOLD`, on one node. It is `add LEDGER ENTRY COUNT WORD`, `copy` likewise, `ask
//! LEDGER ENTRY`, `lac LEDGER`, `fence LEDGER`, `commit`; `times COUNT` before one of these, of which the last is told; `fill ROUNDS` and
//! `adds FROM COUNT`: many entries; `waits`, `item PLACE`, `holds LEDGER ENTRY` and `fenced LEDGER`: what the node has; `file`: the bytes of
//! its file; `spoil PLACE BYTE`: what a load finds where the file has another byte; `turned BITS`: what it finds with these bits of each
//! byte turned; `cuts`: what it finds in the first bytes; `new CALLS OUTCOME`: a node whose file stops behind so many writing calls; `make
//! CALLS OUTCOME`: whether a node is made so, and what a load then finds; `load`: the node is loaded anew; `stop CALLS OUTCOME`: it is loaded
//! anew, and its file then stops behind so many; `from BYTES`: it is loaded from a file of these bytes.

ghost use Rattle.std.specs.Prelude.{IfOk};
ghost use Rattle.dl_depot.specs.Memory.{view_by};
ghost use Rattle.dl_journal.specs.Settled.{Stands};

use super::damage::{tell_cuts, tell_load, tell_make, tell_turned};
use super::messages::{add, ask, ask_lac, copy, fence};
use super::world::World;
use dl_depot::fuse::Outcome;
use dl_text::hex::{hex_of, put_hex};
use dl_types::memory::NoMemory;
use std::alloc::Global;
use std::test::Fail;

/// How many small entries fill the pool.
const POOL: u64 = 2048;

/// What stands before the first space, and what stands after it.
fn cut(text: &str) -> (&str, &str) {
    text.split_once(' ').unwrap_or((text, ""))
}

/// The number of a word, or the greatest one.
fn number_of(word: &str) -> u64 {
    word.parse().unwrap_or(u64::MAX)
}

/// A message.
fn message(world: &mut World, out: &mut Vec<u8>, line: &str) -> Result<(), NoMemory>
    requires { Stands (view_by world.old.depot) world.old.node.journal }
    ensures { Stands (view_by world.new.depot) world.new.node.journal }
{
    let (verb, rest) = cut(line);
    let (ledger, rest) = cut(rest);
    let (entry, rest) = cut(rest);
    let (count, word) = cut(rest);
    let ledger = number_of(ledger);
    let entry = number_of(entry);
    if verb == "add" {
        add(world, out, ledger, entry, number_of(count), word)
    } else if verb == "copy" {
        copy(world, out, ledger, entry, number_of(count), word)
    } else if verb == "ask" {
        ask(world, out, ledger, entry)
    } else if verb == "lac" {
        ask_lac(world, out, ledger)
    } else {
        fence(world, out, ledger)
    }
}

/// A message so many times.
fn times(world: &mut World, out: &mut Vec<u8>, rest: &str) -> Result<(), NoMemory>
    requires { Stands (view_by world.old.depot) world.old.node.journal }
    ensures { Stands (view_by world.new.depot) world.new.node.journal }
{
    let (count, line) = cut(rest);
    'times: for _ in 0..number_of(count) {
        out.clear();
        message(world, out, line)?;
    }
    Ok(())
}

/// Adds so many entries from a number on: each ledger below 4,096 has every 4,096th. The last answer is told.
fn adds(world: &mut World, out: &mut Vec<u8>, from: u64, count: u64) -> Result<(), NoMemory>
    requires { Stands (view_by world.old.depot) world.old.node.journal }
    ensures { Stands (view_by world.new.depot) world.new.node.journal }
{
    'entries: for number in from..from.saturating_add(count) {
        out.clear();
        add(world, out, number % 4096, number / 4096, 0, "a")?;
    }
    Ok(())
}

/// Fills the pool with entries and commits them, so many times. The last commit is told.
fn fill(world: &mut World, out: &mut Vec<u8>, rounds: u64) -> Result<(), NoMemory>
    requires { Stands (view_by world.old.depot) world.old.node.journal }
    ensures { Stands (view_by world.new.depot) world.new.node.journal }
{
    'rounds: for round in 0..rounds {
        adds(world, out, round.saturating_mul(POOL), POOL)?;
        out.clear();
        world.commit(out)?;
    }
    Ok(())
}

/// Tells what a load finds where a file has another byte at a place.
fn spoil(alloc: Global, out: &mut Vec<u8>, bytes: &mut [u8], rest: &str) -> Result<(), Fail> {
    let (place, byte) = cut(rest);
    if let Some(old) = bytes.get_mut((number_of(place) % 1024) as usize) {
        *old = (number_of(byte) % 256) as u8;
    }
    tell_load(alloc, out, bytes)
}

/// Tells the bytes of a file, or what loads find where they are spoilt.
fn tell_file(
    alloc: Global,
    out: &mut Vec<u8>,
    bytes: &mut [u8],
    verb: &str,
    rest: &str,
) -> Result<(), Fail> {
    if verb == "file" {
        put_hex(out, b' ', bytes)?;
        Ok(())
    } else if verb == "spoil" {
        spoil(alloc, out, bytes, rest)
    } else if verb == "turned" {
        tell_turned(alloc, out, bytes, (number_of(rest) % 256) as u8)
    } else {
        tell_cuts(alloc, out, bytes)
    }
}

/// Tells the bytes of the node's file, or what loads find where they are spoilt. The node is then the one that is loaded from the file.
fn file(world: World, out: &mut Vec<u8>, verb: &str, rest: &str) -> Result<World, Fail>
    ensures { IfOk result (λ w. Stands (view_by w.depot) w.node.journal) }
{
    let (mut bytes, world) = world.bytes()?;
    tell_file(world.alloc, out, bytes.as_mut_slice(), verb, rest)?;
    Ok(world)
}

/// Whether a verb is one of the node's file.
fn is_of_file(verb: &str) -> bool {
    verb == "file" || verb == "spoil" || verb == "turned" || verb == "cuts"
}

/// Tells what the node has.
fn show(world: &World, out: &mut Vec<u8>, verb: &str, rest: &str) -> Result<(), NoMemory> {
    let (first, second) = cut(rest);
    if verb == "waits" {
        world.waits(out)
    } else if verb == "item" {
        world.waiting(out, (number_of(first) % 65536) as u32)
    } else if verb == "holds" {
        world.holds(out, number_of(first), number_of(second))
    } else {
        world.fenced(out, number_of(first))
    }
}

/// Whether a verb is one of messages.
fn is_message(verb: &str) -> bool {
    verb == "add" || verb == "copy" || verb == "ask" || verb == "lac" || verb == "fence"
}

/// Does what a line says with a node.
fn do_line(world: &mut World, out: &mut Vec<u8>, line: &str) -> Result<(), NoMemory>
    requires { Stands (view_by world.old.depot) world.old.node.journal }
    ensures { Stands (view_by world.new.depot) world.new.node.journal }
{
    let (verb, rest) = cut(line);
    let (first, second) = cut(rest);
    if is_message(verb) {
        message(world, out, line)
    } else if verb == "commit" {
        world.commit(out)
    } else if verb == "times" {
        times(world, out, rest)
    } else if verb == "fill" {
        fill(world, out, number_of(first))
    } else if verb == "adds" {
        adds(world, out, number_of(first), number_of(second))
    } else {
        show(world, out, verb, rest)
    }
}

/// The outcome of a stopped call.
fn outcome_of(word: &str) -> Outcome {
    if word == "after" {
        Outcome::After
    } else {
        Outcome::Before
    }
}

/// A new node whose file stops.
fn stopping(alloc: Global, rest: &str) -> Result<World, Fail>
    ensures { IfOk result (λ w. Stands (view_by w.depot) w.node.journal) }
{
    let (calls, outcome) = cut(rest);
    World::new(alloc, number_of(calls), outcome_of(outcome))
}

/// The node that is loaded anew, and whose file then stops.
fn loaded(world: World, rest: &str) -> Result<World, Fail>
    ensures { IfOk result (λ w. Stands (view_by w.depot) w.node.journal) }
{
    let (calls, outcome) = cut(rest);
    world.loaded(number_of(calls), outcome_of(outcome))
}

/// Tells whether a node is made where its file stops.
fn make(world: World, out: &mut Vec<u8>, rest: &str) -> Result<World, Fail>
    requires { Stands (view_by world.depot) world.node.journal }
    ensures { IfOk result (λ w. Stands (view_by w.depot) w.node.journal) }
{
    let (calls, outcome) = cut(rest);
    tell_make(world.alloc, out, number_of(calls), outcome_of(outcome))?;
    Ok(world)
}

/// A node that is loaded from a file of bytes in hex.
fn from_hex(alloc: Global, hex: &str) -> Result<World, Fail>
    ensures { IfOk result (λ w. Stands (view_by w.depot) w.node.journal) }
{
    let mut text = String::from_str(alloc, hex)?;
    text.push('\n')?;
    let (bytes, _rest) = hex_of(alloc, b'\n', text.as_bytes())?;
    World::of_file(alloc, &bytes)
}

/// Does what a line says, and gives the node that there is then.
fn step(mut world: World, out: &mut Vec<u8>, line: &str) -> Result<World, Fail>
    requires { Stands (view_by world.depot) world.node.journal }
    ensures { IfOk result (λ w. Stands (view_by w.depot) w.node.journal) }
{
    let (verb, rest) = cut(line);
    if verb == "new" {
        stopping(world.alloc, rest)
    } else if verb == "load" || verb == "stop" {
        loaded(world, rest)
    } else if verb == "from" {
        from_hex(world.alloc, rest)
    } else if verb == "make" {
        make(world, out, rest)
    } else if is_of_file(verb) {
        file(world, out, verb, rest)
    } else {
        do_line(&mut world, out, line)?;
        Ok(world)
    }
}

/// The place of the first row that isn't told as it says.
pub fn first_wrong(alloc: Global, table: &str) -> Result<Option<usize>, Fail> {
    let mut world = stopping(alloc, "never")?;
    'rows: for (place, row) in table.lines().enumerate() {
        let (line, wanted) = row.split_once(" => ").unwrap_or((row, ""));
        let mut out = Vec::new(alloc);
        world = step(world, &mut out, line)?;
        if out.as_slice().trim_ascii() != wanted.as_bytes() {
            return Ok(Some(place));
        }
    }
    Ok(None)
}
