ghost use Rattle.std.specs.Prelude.{◌≡◌, ◌<◌, length};
ghost use Rattle.std.specs.Int.{w16, w32};
ghost use Rattle.dl_fields.specs.Fields.{counted_field};
ghost use Rattle.dl_fields.specs.Outputs.{Puts};

use byteorder::{BigEndian, ByteOrder};
use dl_types::memory::NoMemory;
use std::alloc::Global;

/// Adds bytes behind their length of 16 bits at the end of `out`. Where memory runs out, `out` is as before.
#[tactic(auto, unfolding(dl_codec::specs::Fields::field))]
pub fn put_run_u16(_alloc: Global, out: &mut Vec<u8>, run: &[u8]) -> Result<(), NoMemory>
    requires { length run.now < 65536 }
    ensures { Puts out.old.items out.new.items (counted_field w16 run.now) result }
{
    let mut size = [0u8; 2];
    BigEndian::write_u16(&mut size, run.len() as u16);
    out.reserve(2 + run.len())?;
    out.extend_from_slice(&size)?;
    out.extend_from_slice(run)?;
    Ok(())
}

/// Adds bytes behind their length of 32 bits at the end of `out`. Where memory runs out, `out` is as before.
#[tactic(auto, unfolding(dl_codec::specs::Fields::field))]
pub fn put_run_u32(_alloc: Global, out: &mut Vec<u8>, run: &[u8]) -> Result<(), NoMemory>
    requires { length run.now < 4294967296 }
    ensures { Puts out.old.items out.new.items (counted_field w32 run.now) result }
{
    let mut size = [0u8; 4];
    BigEndian::write_u32(&mut size, run.len() as u32);
    out.reserve(4 + run.len())?;
    out.extend_from_slice(&size)?;
    out.extend_from_slice(run)?;
    Ok(())
}
