ghost use Rattle.std.specs.Prelude.{◌≡◌, ◌+◌, ◌≤◌, length, IfOk};
ghost use Rattle.std.specs.Int.{w8, w16, w32, w64};
ghost use Rattle.dl_fields.specs.Readers.{Reads};
ghost use Rattle.dl_fields.specs.Fields.{run_from, counted_field_from};

use crate::fault::Fault;
use crate::number::{read_u16, read_u32};

/// So many bytes at the front, and the bytes behind them. The run is short exactly where fewer bytes are there.
pub fn read_run(size: usize, bytes: &[u8]) -> Result<(&[u8], &[u8]), Fault>
    ensures exact { Reads (λ x. (x.0.now, x.1.now)) result (run_from size bytes.now) }
    ensures room { IfOk result (λ x. length x.0.now + length x.1.now ≤ length bytes.now) }
{
    if size <= bytes.len() {
        Ok((&bytes[..size], &bytes[size..]))
    } else {
        Err(Fault::Short(bytes.len()))
    }
}

/// A run of bytes behind its length of 16 bits, and the bytes behind it.
pub fn read_run_u16(bytes: &[u8]) -> Result<(&[u8], &[u8]), Fault>
    ensures exact { Reads (λ x. (x.0.now, x.1.now)) result (counted_field_from w16 bytes.now) }
    ensures room { IfOk result (λ x. length x.0.now + length x.1.now ≤ length bytes.now) }
{
    let (size, rest) = read_u16(bytes)?;
    read_run(usize::from(size), rest)
}

/// A run of bytes behind its length of 32 bits, and the bytes behind it.
pub fn read_run_u32(bytes: &[u8]) -> Result<(&[u8], &[u8]), Fault>
    ensures exact { Reads (λ x. (x.0.now, x.1.now)) result (counted_field_from w32 bytes.now) }
    ensures room { IfOk result (λ x. length x.0.now + length x.1.now ≤ length bytes.now) }
{
    let (size, rest) = read_u32(bytes)?;
    read_run(size as usize, rest)
}
