ghost use Rattle.std.specs.Prelude.{◌≡◌, ℕ, nat_eq, IfOk, IfErr, None};
ghost use Rattle.std.specs.Cmp.{partial_equiv_from_equiv};
ghost use Rattle.std.specs.Cmp.Lexicographic.{pointwise, nat_list_eq_equiv};
ghost use Rattle.dl_types.specs.Names.{name_fault, is_letter, is_name_byte};
ghost use Rattle.dl_types.specs.NameFaults.{IsNameFault};

use crate::memory::NoMemory;
use crate::name_fault::NameFault;
use bytes::Bytes;
use std::alloc::{AllocError, Global};
use std::marker::Model;

/// The most bytes of a name.
pub const MAX_NAME: u8 = 64;

/// The name of a stream: 1 to `MAX_NAME` bytes of `a` to `z`, `0` to `9`, `_` and `-`, the first a letter. Copies share the
/// bytes. Contracts see a name as the list of its bytes.
#[derive(Clone, Debug, Drop)]
pub struct Name {
    bytes: Bytes,
}

impl Model for Name {
    ghost use Rattle.std.specs.Prelude.{List, ℕ, ◌≡◌, None};
    ghost use Rattle.dl_types.specs.Names.{name_fault};

    ghost Value = { List ℕ };

    ghost view = { λ n. n.bytes };

    ghost invariant = { λ n. name_fault n.bytes ≡ None };
}

impl PartialEq for Name {
    ghost eq = { pointwise nat_eq };

    ghost laws = { partial_equiv_from_equiv nat_list_eq_equiv };

    fn eq(&self, other: &Self) -> bool {
        self.as_slice() == other.as_slice()
    }
}

impl Eq for Name {
    ghost laws = { nat_list_eq_equiv };
}

fn is_letter(byte: u8) -> bool
    ensures { result ≡ is_letter byte }
{
    byte.is_ascii_lowercase()
}

fn is_name_byte(byte: u8) -> bool
    ensures { result ≡ is_name_byte byte }
{
    matches!(byte, b'a'..=b'z' | b'0'..=b'9' | b'_' | b'-')
}

/// The place of the first byte that breaks the form of a name.
fn fault_of(bytes: &[u8]) -> Option<u8>
    ensures { result ≡ name_fault bytes.now }
{
    match bytes {
        [] => Some(0),
        [first, ..] => {
            if !is_letter(*first) {
                return Some(0);
            }
            for (i, byte) in bytes.iter().enumerate() {
                if i >= MAX_NAME as usize {
                    return Some(MAX_NAME);
                }
                if !is_name_byte(*byte) {
                    return Some(i as u8);
                }
            }
            None
        }
    }
}

impl Name {
    /// The name of these bytes. `BadName` names the first byte that breaks the form: 0 for no bytes at all, 64 for a
    /// text that is good for 64 bytes and longer.
    pub fn new(alloc: Global, bytes: &[u8]) -> Result<Name, NameFault>
        ensures ok { IfOk result (λ n. n ≡ bytes.now) }
        ensures good { IfOk result (λ n. name_fault bytes.now ≡ None) }
        ensures bad { IfErr result (IsNameFault bytes.now) }
    {
        if let Some(at) = fault_of(bytes) {
            return Err(NameFault::BadName { at });
        }
        match Bytes::copy_from_slice(alloc, bytes) {
            Ok(bytes) => Ok(Name { bytes }),
            Err(_) => Err(NameFault::NoMemory),
        }
    }

    /// Another owner of the same name.
    pub fn share(&self) -> Result<Name, NoMemory>
        ensures { IfOk result (λ n. n ≡ self.now) }
    {
        let shared = self.clone()?;
        Ok(shared)
    }

    /// The bytes of the name.
    pub fn as_slice(&self) -> &[u8]
        ensures value { result.now ≡ self.now }
        ensures good { name_fault result.now ≡ None }
    {
        self.bytes.as_slice()
    }
}
