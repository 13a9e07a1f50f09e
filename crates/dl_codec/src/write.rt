ghost use Rattle.std.specs.Prelude.{◌≡◌, ◌++◌, OnOk, OnErr};
ghost use Rattle.std.specs.Int.{w8, w16, w32, w64};
ghost use Rattle.dl_codec.specs.Fields.{field};

use byteorder::{BigEndian, ByteOrder};
use dl_types::memory::NoMemory;
use std::alloc::Global;

/// Adds a byte at the end of `out`.
#[tactic(auto, unfolding(crate::specs::Fields::field))]
pub fn put_u8(_alloc: Global, out: &mut Vec<u8>, value: u8) -> Result<(), NoMemory>
    ensures ok { OnOk result (out.new.items ≡ out.old.items ++ field w8 value) }
    ensures err { OnErr result (out.new.items ≡ out.old.items) }
{
    out.push(value)?;
    Ok(())
}

/// Adds the two bytes of a number at the end of `out`, the high byte first.
#[tactic(auto, unfolding(crate::specs::Fields::field))]
pub fn put_u16(_alloc: Global, out: &mut Vec<u8>, value: u16) -> Result<(), NoMemory>
    ensures ok { OnOk result (out.new.items ≡ out.old.items ++ field w16 value) }
    ensures err { OnErr result (out.new.items ≡ out.old.items) }
{
    let mut bytes = [0u8; 2];
    BigEndian::write_u16(&mut bytes, value);
    out.extend_from_slice(&bytes)?;
    Ok(())
}

/// Adds the four bytes of a number at the end of `out`, the high byte first.
#[tactic(auto, unfolding(crate::specs::Fields::field))]
pub fn put_u32(_alloc: Global, out: &mut Vec<u8>, value: u32) -> Result<(), NoMemory>
    ensures ok { OnOk result (out.new.items ≡ out.old.items ++ field w32 value) }
    ensures err { OnErr result (out.new.items ≡ out.old.items) }
{
    let mut bytes = [0u8; 4];
    BigEndian::write_u32(&mut bytes, value);
    out.extend_from_slice(&bytes)?;
    Ok(())
}

/// Adds the eight bytes of a number at the end of `out`, the high byte first.
#[tactic(auto, unfolding(crate::specs::Fields::field))]
pub fn put_u64(_alloc: Global, out: &mut Vec<u8>, value: u64) -> Result<(), NoMemory>
    ensures ok { OnOk result (out.new.items ≡ out.old.items ++ field w64 value) }
    ensures err { OnErr result (out.new.items ≡ out.old.items) }
{
    let mut bytes = [0u8; 8];
    BigEndian::write_u64(&mut bytes, value);
    out.extend_from_slice(&bytes)?;
    Ok(())
}
