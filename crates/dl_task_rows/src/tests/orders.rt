//! A task under way on a store, event by event. An event is `run`: the store runs the request, and the task hears the answer; `lost`:
//! the store runs it, and nobody hears the answer; `other OPERATION`: another client's request runs; `hear ANSWER`: the task hears
//! this answer, in hex, which the store didn't give; or `message`: it hears a bookie.

use super::spelling::{bytes_of, cut};
use super::telling::{Outcome, Told};
use super::world::World;
use dl_alloc::allocation::Allocation;
use dl_lock::lock::Lock;
use dl_msg::heard::Heard;
use dl_msg::msg::Msg;
use dl_msg::turn::Turn;
use dl_namespace::make::Make;
use dl_namespace::remove::Remove;
use dl_tree_msg::answer::read_answer;
use dl_trunc::purge::Purge;
use dl_trunc::truncate::Truncate;
use dl_types::dlsn::Dlsn;
use dl_types::memory::NoMemory;
use dl_types::path::Path;
use std::alloc::Global;
use std::test::Fail;

/// A task that hears.
pub trait Task: Drop {
    type End: Outcome;

    fn turn_at(&mut self, heard: &Heard) -> Result<Turn<Self::End>, NoMemory>;
}

impl Task for Make {
    type End = ();

    fn turn_at(&mut self, heard: &Heard) -> Result<Turn<()>, NoMemory> {
        self.hear(heard)
    }
}

impl Task for Remove {
    type End = ();

    fn turn_at(&mut self, heard: &Heard) -> Result<Turn<()>, NoMemory> {
        self.hear(heard)
    }
}

impl Task for Lock {
    type End = Path;

    fn turn_at(&mut self, heard: &Heard) -> Result<Turn<Path>, NoMemory> {
        self.hear(heard)
    }
}

impl Task for Allocation {
    type End = u64;

    fn turn_at(&mut self, heard: &Heard) -> Result<Turn<u64>, NoMemory> {
        self.hear(heard)
    }
}

impl Task for Truncate {
    type End = Dlsn;

    fn turn_at(&mut self, heard: &Heard) -> Result<Turn<Dlsn>, NoMemory> {
        self.hear(heard)
    }
}

impl Task for Purge {
    type End = u64;

    fn turn_at(&mut self, heard: &Heard) -> Result<Turn<u64>, NoMemory> {
        self.hear(heard)
    }
}

/// The task hears, and its turn is told.
fn hear<T: Task>(task: &mut T, told: &mut Told, heard: &Heard) -> Result<(), NoMemory> {
    let turn = task.turn_at(heard)?;
    told.turn(&turn)
}

/// The answer that these bytes in hex spell.
fn forged(alloc: Global, hex: &str) -> Result<Heard, Fail> {
    let bytes = bytes_of(alloc, hex)?;
    let (answer, _rest) = read_answer(alloc, &bytes)?;
    Ok(Heard::Reply(answer))
}

/// A bookie's message.
fn message() -> Heard {
    Heard::From(
        1,
        Msg::AddOk {
            ledger: 1,
            entry: 0,
        },
    )
}

/// The store runs a request of a session, and it is told by what that failed.
fn run(world: &mut World, told: &mut Told, session: u64, request: &str) -> Result<Heard, Fail> {
    let heard = world.ask(session, request)?;
    told.failure(world.alloc, &heard)?;
    Ok(heard)
}

/// The store runs the request that the task waits for.
fn run_own(world: &mut World, told: &mut Told) -> Result<Heard, Fail> {
    let request = String::from_str(world.alloc, told.request().unwrap_or(""))?;
    let session = world.own;
    run(world, told, session, request.as_str())
}

/// The store runs an operation of the other client.
pub fn interfere(world: &mut World, told: &mut Told, op: &str) -> Result<(), Fail> {
    let request = format!(in world.alloc; "one\n{op}")?;
    let session = world.other;
    let _heard = run(world, told, session, request.as_str())?;
    Ok(())
}

/// What an event lets the task hear.
fn heard_at(world: &mut World, told: &mut Told, event: &str) -> Result<Heard, Fail> {
    let (word, rest) = cut(event);
    if word == "run" {
        run_own(world, told)
    } else if word == "hear" {
        forged(world.alloc, rest)
    } else {
        Ok(message())
    }
}

/// An event.
fn meet<T: Task>(
    world: &mut World,
    task: &mut T,
    told: &mut Told,
    event: &str,
) -> Result<(), Fail> {
    let (word, rest) = cut(event);
    if word == "other" {
        return interfere(world, told, rest);
    }
    if word == "lost" {
        let _heard = run_own(world, told)?;
        told.asked = None;
        return Ok(());
    }
    let heard = heard_at(world, told, event)?;
    hear(task, told, &heard)?;
    Ok(())
}

/// How many requests a row's task asks at most.
const MOST_REQUESTS: u32 = 8;

/// The task goes on to its end, or to the last request.
fn finish<T: Task>(world: &mut World, task: &mut T, told: &mut Told) -> Result<(), Fail> {
    for _ in 0..MOST_REQUESTS {
        if told.asked.is_none() {
            return Ok(());
        }
        meet(world, task, told, "run")?;
    }
    Ok(())
}

/// A task that has begun meets the events, with `; ` between two, and then goes on to its end.
pub fn go<T: Task>(
    world: &mut World,
    told: &mut Told,
    begun: (T, Turn<T::End>),
    events: &str,
) -> Result<(), Fail> {
    let (mut task, turn) = begun;
    told.turn(&turn)?;
    if !events.is_empty() {
        for event in events.split("; ") {
            meet(world, &mut task, told, event)?;
        }
    }
    finish(world, &mut task, told)
}
