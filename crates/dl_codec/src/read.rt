ghost use Rattle.std.specs.Prelude.{◌≡◌, ◌+◌, ◌<◌, ◌↔◌, length, take, drop, IfOk, IfErr, IsErr};
ghost use Rattle.std.specs.Int.{w8, w16, w32, w64};
ghost use Rattle.dl_codec.specs.Fields.{number_at, field};

use crate::short::Short;
use byteorder::{BigEndian, ByteOrder};

/// The byte at a place. `Short` comes exactly where no byte stands there.
#[tactic(auto, unfolding(crate::specs::Fields::number_at, crate::specs::Fields::number_of, crate::specs::Fields::field))]
pub fn get_u8(bytes: &[u8], at: usize) -> Result<u8, Short>
    ensures number { result ≡ number_at w8 bytes.now at }
    ensures spelling { IfOk result (λ n. take 1 (drop at bytes.now) ≡ field w8 n) }
    ensures short { IsErr result ↔ (length bytes.now < at + 1) }
    ensures place { IfErr result (λ short. short.at ≡ at) }
{
    if at < bytes.len() {
        Ok(bytes[at])
    } else {
        Err(Short { at })
    }
}

/// The number of 16 bits in the two bytes from a place on, the high byte first. `Short` comes exactly where fewer bytes
/// remain.
#[tactic(auto, unfolding(crate::specs::Fields::number_at, crate::specs::Fields::number_of, crate::specs::Fields::field))]
pub fn get_u16(bytes: &[u8], at: usize) -> Result<u16, Short>
    ensures number { result ≡ number_at w16 bytes.now at }
    ensures spelling { IfOk result (λ n. take 2 (drop at bytes.now) ≡ field w16 n) }
    ensures short { IsErr result ↔ (length bytes.now < at + 2) }
    ensures place { IfErr result (λ short. short.at ≡ at) }
{
    if at <= bytes.len() && bytes.len() - at >= 2 {
        Ok(BigEndian::read_u16(&bytes[at..]))
    } else {
        Err(Short { at })
    }
}

/// The number of 32 bits in the four bytes from a place on, the high byte first. `Short` comes exactly where fewer bytes
/// remain.
#[tactic(auto, unfolding(crate::specs::Fields::number_at, crate::specs::Fields::number_of, crate::specs::Fields::field))]
pub fn get_u32(bytes: &[u8], at: usize) -> Result<u32, Short>
    ensures number { result ≡ number_at w32 bytes.now at }
    ensures spelling { IfOk result (λ n. take 4 (drop at bytes.now) ≡ field w32 n) }
    ensures short { IsErr result ↔ (length bytes.now < at + 4) }
    ensures place { IfErr result (λ short. short.at ≡ at) }
{
    if at <= bytes.len() && bytes.len() - at >= 4 {
        Ok(BigEndian::read_u32(&bytes[at..]))
    } else {
        Err(Short { at })
    }
}

/// The number of 64 bits in the eight bytes from a place on, the high byte first. `Short` comes exactly where fewer
/// bytes remain.
#[tactic(auto, unfolding(crate::specs::Fields::number_at, crate::specs::Fields::number_of, crate::specs::Fields::field))]
pub fn get_u64(bytes: &[u8], at: usize) -> Result<u64, Short>
    ensures number { result ≡ number_at w64 bytes.now at }
    ensures spelling { IfOk result (λ n. take 8 (drop at bytes.now) ≡ field w64 n) }
    ensures short { IsErr result ↔ (length bytes.now < at + 8) }
    ensures place { IfErr result (λ short. short.at ≡ at) }
{
    if at <= bytes.len() && bytes.len() - at >= 8 {
        Ok(BigEndian::read_u64(&bytes[at..]))
    } else {
        Err(Short { at })
    }
}
