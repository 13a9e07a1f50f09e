ghost use Rattle.std.specs.Prelude.{◌≡◌, ℕ, nat_eq, length, IfOk, ◌==◌, refl, Some};
ghost use Rattle.std.specs.Ordering.{nat_cmp};
ghost use Rattle.std.specs.Cmp.{partial_equiv_from_equiv};
ghost use Rattle.std.specs.Cmp.Lexicographic.{pointwise, slice_cmp, nat_list_eq_equiv};
ghost use Rattle.std.specs.Cmp.Lexicographic.{nat_list_cmp_total, texts_ties, texts_po};

use crate::memory::NoMemory;
use bytes::Bytes;
use std::alloc::{AllocError, Global};
use std::cmp::Ordering;
use std::marker::{Model, PhantomData};

/// Bytes of the kind that `K` names, as the payload of a record. Copies share them: a clone counts one more owner, so that
/// the same bytes can stand in a row, an event and several letters at once. Contracts see the list of the bytes.
#[derive(Debug, Drop)]
pub struct Shared<K> {
    bytes: Bytes,
    kind: PhantomData<K>,
}

impl<K> Model for Shared<K> {
    ghost use Rattle.std.specs.Prelude.{List, ℕ};

    ghost Value = { List ℕ };

    ghost view = { λ b. b.bytes };
}

impl<K> Clone for Shared<K> {
    ghost is_clone = { λ b copy. copy ≡ b };

    fn clone(&self) -> Result<Self, AllocError> {
        let bytes = self.bytes.clone()?;
        Ok(Shared {
            bytes,
            kind: PhantomData,
        })
    }
}

impl<K> PartialEq for Shared<K> {
    ghost eq = { pointwise nat_eq };

    ghost laws = { partial_equiv_from_equiv nat_list_eq_equiv };

    fn eq(&self, other: &Self) -> bool {
        self.as_slice() == other.as_slice()
    }
}

impl<K> Eq for Shared<K> {
    ghost laws = { nat_list_eq_equiv };
}

impl<K> PartialOrd for Shared<K> {
    ghost partial_cmp = { λ x y. Some (slice_cmp nat_cmp x y) };

    ghost laws = { texts_po };

    fn partial_cmp(&self, other: &Self) -> Option<Ordering> {
        Some(self.cmp(other))
    }
}

impl<K> Ord for Shared<K> {
    ghost cmp = { slice_cmp nat_cmp };

    ghost total = { nat_list_cmp_total };

    ghost matches_partial_cmp = { λ x y. refl };

    ghost matches_eq = { texts_ties };

    fn cmp(&self, other: &Self) -> Ordering {
        self.as_slice().cmp(other.as_slice())
    }
}

impl<K> Shared<K> {
    /// Bytes of their own that are a copy of these.
    pub fn new(alloc: Global, bytes: &[u8]) -> Result<Self, NoMemory>
        ensures { IfOk result (λ b. b ≡ bytes.now) }
    {
        let bytes = Bytes::copy_from_slice(alloc, bytes)?;
        Ok(Shared {
            bytes,
            kind: PhantomData,
        })
    }

    /// These bytes, taken over without a copy.
    pub fn from_vec(bytes: Vec<u8>) -> Result<Self, NoMemory>
        ensures { IfOk result (λ b. b ≡ bytes.items) }
    {
        let bytes = Bytes::from_vec(bytes)?;
        Ok(Shared {
            bytes,
            kind: PhantomData,
        })
    }

    /// These bytes, shared as they are.
    pub fn from_bytes(bytes: Bytes) -> Self
        ensures { result ≡ bytes }
    {
        Shared {
            bytes,
            kind: PhantomData,
        }
    }

    /// The bytes, as they are shared.
    pub fn into_bytes(self) -> Bytes
        ensures { result ≡ self }
    {
        let Shared { bytes, kind: _ } = self;
        bytes
    }

    /// Another owner of the same bytes.
    pub fn share(&self) -> Result<Self, NoMemory>
        ensures { IfOk result (λ b. b ≡ self.now) }
    {
        let shared = self.clone()?;
        Ok(shared)
    }

    /// The bytes.
    pub fn as_slice(&self) -> &[u8]
        ensures { result.now ≡ self.now }
    {
        self.bytes.as_slice()
    }

    /// How many bytes there are.
    pub fn len(&self) -> usize
        ensures { result ≡ length self.now }
    {
        self.bytes.len()
    }

    /// Whether there are no bytes.
    pub fn is_empty(&self) -> bool
        ensures { result ≡ (length self.now == 0) }
    {
        self.bytes.len() == 0
    }
}
