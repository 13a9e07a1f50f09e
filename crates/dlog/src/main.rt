//! The command `dlog`: replays a schedule from standard input, and prints its transcript on standard output.
#![tactic(auto)]

mod arguments;
mod command;
mod ended;
mod entry;
mod laws;
mod log;
mod machine;
mod order;
mod program;
mod replay;
mod run;
#[cfg(test)]
mod tests;
mod text;
mod top;

use crate::arguments::read_words;
use crate::program::{exit_code, program};
use dl_io::standard::{NoteSink, StdSink, StdSource};
use std::process::ExitCode;

fn main(rt: HostRuntime) -> ExitCode {
    let mut source = StdSource::new(rt);
    let mut sink = StdSink::new(rt);
    let mut notes = NoteSink::new(rt);
    let words = read_words(&rt, rt.alloc());
    exit_code(program(rt.alloc(), words, &mut source, &mut sink, &mut notes))
}
