ghost use Rattle.std.specs.Prelude.{◌≡◌, None};

use crate::traits::{ReadFailed, Sink, Source, WriteFailed};
use std::io::Read;
use std::marker::Model;

/// Standard input. It tells no bytes: what the system gives is trusted. Contracts see how many of its calls failed.
#[derive(Drop)]
pub struct StdSource<R: Input> {
    reader: R::Reader,
    rt: R,
    faults: u64,
}

impl<R: Input> Model for StdSource<R> {
    ghost use Rattle.std.specs.Prelude.{ℕ};

    ghost Value = { ℕ };

    ghost view = { λ s. s.faults };
}

impl<R: Input + Clone + Drop> StdSource<R> {
    /// The standard input of this runtime. It keeps one reader, which reads ahead.
    pub fn new(rt: R) -> StdSource<R>
        ensures { result ≡ 0 }
    {
        let reader = rt.reader();
        StdSource {
            reader,
            rt,
            faults: 0,
        }
    }
}

impl<R: Input + Clone + Drop> Source for StdSource<R> {
    ghost view = { λ faults. record { left = None; faults = faults } };

    fn take(&mut self, into: &mut [u8]) -> Result<usize, ReadFailed> {
        match self.reader.read(into) {
            Ok(count) => Ok(count),
            Err(_) => {
                self.faults = self.faults.saturating_add(1);
                Err(ReadFailed)
            }
        }
    }
}

/// Standard output. It tells no bytes: what the system takes is trusted. A write goes to the system at once, so `finish`
/// has nothing to do. Contracts see how many of its calls failed.
#[derive(Drop)]
pub struct StdSink<R> {
    rt: R,
    faults: u64,
}

impl<R> Model for StdSink<R> {
    ghost use Rattle.std.specs.Prelude.{ℕ};

    ghost Value = { ℕ };

    ghost view = { λ s. s.faults };
}

impl<R: Print + Clone + Drop> StdSink<R> {
    /// The standard output of this runtime.
    pub fn new(rt: R) -> StdSink<R>
        ensures { result ≡ 0 }
    {
        StdSink { rt, faults: 0 }
    }
}

impl<R: Print + Clone + Drop> Sink for StdSink<R> {
    ghost view = { λ faults. record { held = None; finished = None; faults = faults } };

    fn give(&mut self, bytes: &[u8]) -> Result<usize, WriteFailed> {
        if bytes.is_empty() {
            return Ok(0);
        }
        match self.rt.write_some(bytes) {
            Ok(count) if count > 0 => Ok(count),
            _ => {
                self.faults = self.faults.saturating_add(1);
                Err(WriteFailed)
            }
        }
    }

    fn finish(&mut self) -> Result<(), WriteFailed> {
        Ok(())
    }
}

/// Standard error, for text: bytes that are not UTF-8 are a fault. It tells no bytes: what the system takes is trusted.
/// A write goes to the system at once, so `finish` has nothing to do. Contracts see how many of its calls failed.
#[derive(Drop)]
pub struct NoteSink<R> {
    rt: R,
    faults: u64,
}

impl<R> Model for NoteSink<R> {
    ghost use Rattle.std.specs.Prelude.{ℕ};

    ghost Value = { ℕ };

    ghost view = { λ s. s.faults };
}

impl<R: Eprint + Clone + Drop> NoteSink<R> {
    /// The standard error of this runtime.
    pub fn new(rt: R) -> NoteSink<R>
        ensures { result ≡ 0 }
    {
        NoteSink { rt, faults: 0 }
    }
}

impl<R: Eprint + Clone + Drop> Sink for NoteSink<R> {
    ghost view = { λ faults. record { held = None; finished = None; faults = faults } };

    fn give(&mut self, bytes: &[u8]) -> Result<usize, WriteFailed> {
        if let Ok(text) = std::str::from_utf8(bytes) {
            if self.rt.eprint(text).is_ok() {
                return Ok(bytes.len());
            }
        }
        self.faults = self.faults.saturating_add(1);
        Err(WriteFailed)
    }

    fn finish(&mut self) -> Result<(), WriteFailed> {
        Ok(())
    }
}
