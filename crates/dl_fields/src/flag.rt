ghost use Rattle.dl_fields.specs.Readers.{Reads};
ghost use Rattle.dl_fields.specs.Outputs.{Puts};
ghost use Rattle.dl_fields.specs.Flags.{flag_byte, flag_from, flag_code};

use crate::code::{Code, read_code};
use crate::fault::Fault;
use dl_codec::write::put_u8;
use dl_types::memory::NoMemory;
use std::alloc::Global;

/// A byte that says yes or no: 1 or 0.
impl Code for bool {
    ghost code = { flag_code };

    fn code(self) -> u8 {
        if self { 1 } else { 0 }
    }
}

/// The flag of one byte at the front, and the bytes behind it. A byte that is neither 0 nor 1 is bad.
pub fn read_flag(bytes: &[u8]) -> Result<(bool, &[u8]), Fault>
    ensures { Reads (λ x. (x.0, x.1.now)) result (flag_from bytes.now) }
{
    read_code(&[false, true], bytes)
}

/// Adds a flag of one byte at the end of `out`.
pub fn put_flag(alloc: Global, out: &mut Vec<u8>, on: bool) -> Result<(), NoMemory>
    ensures { Puts out.old.items out.new.items (flag_byte on) result }
{
    put_u8(alloc, out, on.code())
}
