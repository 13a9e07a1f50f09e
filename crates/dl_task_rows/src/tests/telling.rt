//! What a task does, told as lines: the requests that it asks, and how it ends.

use super::spelling::MODES;
use dl_msg::heard::Heard;
use dl_msg::turn::Turn;
use dl_text::field::{put_bytes, put_place, put_refusal};
use dl_text::hex::put_hex;
use dl_text::number::put_number;
use dl_types::dlsn::Dlsn;
use dl_types::memory::NoMemory;
use dl_types::meta_answer::MetaAnswer;
use dl_types::meta_op::MetaOp;
use dl_types::mode::Mode;
use dl_types::one_op::OneOp;
use dl_types::path::Path;
use std::alloc::Global;

/// What a task ends with, as a line.
pub trait Outcome: Drop {
    fn tell(&self, out: &mut Vec<u8>) -> Result<(), NoMemory>;
}

impl Outcome for () {
    fn tell(&self, out: &mut Vec<u8>) -> Result<(), NoMemory> {
        put_bytes(out, b'\n', b"done")
    }
}

impl Outcome for u64 {
    fn tell(&self, out: &mut Vec<u8>) -> Result<(), NoMemory> {
        put_bytes(out, b' ', b"done")?;
        put_number(out, b'\n', *self)
    }
}

impl Outcome for Path {
    fn tell(&self, out: &mut Vec<u8>) -> Result<(), NoMemory> {
        put_bytes(out, b' ', b"done")?;
        put_bytes(out, b'\n', self.as_slice())
    }
}

impl Outcome for Dlsn {
    fn tell(&self, out: &mut Vec<u8>) -> Result<(), NoMemory> {
        put_bytes(out, b' ', b"done")?;
        put_place(out, b'\n', *self)
    }
}

/// Tells a verb and a path.
fn tell_path(out: &mut Vec<u8>, verb: &[u8], end: u8, path: &Path) -> Result<(), NoMemory> {
    put_bytes(out, b' ', verb)?;
    put_bytes(out, end, path.as_slice())
}

/// Tells a mode.
fn tell_mode(out: &mut Vec<u8>, mode: Mode) -> Result<(), NoMemory> {
    let word = MODES.get(mode as usize).copied().unwrap_or("");
    put_bytes(out, b' ', word.as_bytes())
}

/// Tells a version.
fn tell_version(out: &mut Vec<u8>, end: u8, version: Option<u64>) -> Result<(), NoMemory> {
    match version {
        Some(version) => put_number(out, end, version),
        None => put_bytes(out, end, b"any"),
    }
}

/// Tells an operation that changes nothing.
fn tell_look(out: &mut Vec<u8>, op: &OneOp) -> Result<(), NoMemory> {
    match op {
        OneOp::Check { path, version } => {
            tell_path(out, b"check", b' ', path)?;
            tell_version(out, b'\n', *version)
        }
        OneOp::Get { path } => tell_path(out, b"get", b'\n', path),
        OneOp::Children { path } => tell_path(out, b"children", b'\n', path),
        _ => Ok(()),
    }
}

/// Tells an operation.
fn tell_op(out: &mut Vec<u8>, op: &OneOp) -> Result<(), NoMemory> {
    match op {
        OneOp::Create { path, bytes, mode } => {
            tell_path(out, b"create", b' ', path)?;
            tell_mode(out, *mode)?;
            put_hex(out, b'\n', bytes.as_slice())
        }
        OneOp::Delete { path, version } => {
            tell_path(out, b"delete", b' ', path)?;
            tell_version(out, b'\n', *version)
        }
        OneOp::Set {
            path,
            bytes,
            version,
        } => {
            tell_path(out, b"set", b' ', path)?;
            tell_version(out, b' ', *version)?;
            put_hex(out, b'\n', bytes.as_slice())
        }
        _ => tell_look(out, op),
    }
}

/// Tells a request.
fn tell_request(out: &mut Vec<u8>, request: &MetaOp) -> Result<(), NoMemory> {
    match request {
        MetaOp::One(op) => {
            put_bytes(out, b'\n', b"one")?;
            tell_op(out, op)
        }
        MetaOp::Multi { ops } => {
            put_bytes(out, b'\n', b"all")?;
            for op in ops.as_slice() {
                tell_op(out, op)?;
            }
            Ok(())
        }
    }
}

/// What is told of a row, and where the request that its task waits for begins in it.
#[derive(Drop)]
pub struct Told {
    pub out: Vec<u8>,
    pub asked: Option<usize>,
}

impl Told {
    /// Nothing yet.
    pub fn new(alloc: Global) -> Told {
        Told {
            out: Vec::new(alloc),
            asked: None,
        }
    }

    /// The request that the task waits for, if it waits.
    pub fn request(&self) -> Option<&str> {
        let text = std::str::from_utf8(&self.out).unwrap_or("");
        text.get(self.asked?..)
    }

    /// Tells a turn.
    pub fn turn<A: Outcome>(&mut self, turn: &Turn<A>) -> Result<(), NoMemory> {
        match turn {
            Turn::Ask(request) => {
                self.asked = Some(self.out.len());
                tell_request(&mut self.out, request)
            }
            Turn::Done(outcome) => {
                self.asked = None;
                outcome.tell(&mut self.out)
            }
            Turn::Refused(refusal) => {
                self.asked = None;
                put_refusal(&mut self.out, refusal)
            }
            _ => Ok(()),
        }
    }

    /// Tells by what a request failed; of one that was done it tells nothing.
    pub fn failure(&mut self, alloc: Global, heard: &Heard) -> Result<(), NoMemory> {
        let Heard::Reply(MetaAnswer::Failed { place, why }) = heard else {
            return Ok(());
        };
        let text = format!(in alloc; "failed {place} {why:?}")?;
        put_bytes(&mut self.out, b'\n', text.as_bytes())
    }
}
