ghost use Rattle.std.specs.Prelude.{◌≡◌, ℕ, ◌≤◌, ◌<◌, ◌*◌, ◌^◌, ◌++◌, List, length, OnOk, All};
ghost use Rattle.std.specs.List.{flat_map};

use dl_types::memory::NoMemory;
use std::alloc::Global;

/// A thing of a list, which has one spelling of its own.
pub trait Item: Drop {
    /// Whether the thing has a spelling.
    ghost valid: { Self → Type 0 };

    /// The spelling.
    ghost spelling: { Self → List ℕ };

    /// The most bytes of a spelling.
    ghost most: { ℕ };

    /// Adds the thing; where memory runs out, a part of it may have been added.
    fn put_item(&self, alloc: Global, out: &mut Vec<u8>) -> Result<(), NoMemory>
        requires { valid self.now }
        ensures { OnOk result (out.new.items ≡ out.old.items ++ spelling self.now) };

    /// How many bytes the thing has.
    fn size_of_item(&self) -> u64
        requires { valid self.now }
        ensures exact { result ≡ length (spelling self.now) }
        ensures bound { result ≤ most };
}

/// Adds things without their count; where memory runs out, a part of them may have been added.
pub fn put_items<T: Item>(alloc: Global, out: &mut Vec<u8>, items: &[T]) -> Result<(), NoMemory>
    requires { All T.valid items.now }
    ensures { OnOk result (out.new.items ≡ out.old.items ++ flat_map T.spelling items.now) }
{
    for item in items {
        item.put_item(alloc, out)?;
    }
    Ok(())
}

/// How many bytes things have without their count.
pub fn size_of_items<T: Item>(items: &[T]) -> u64
    requires valid { All T.valid items.now }
    requires few { T.most * length items.now < 2 ^ 64 }
    ensures exact { result ≡ length (flat_map T.spelling items.now) }
    ensures bound { result ≤ T.most * length items.now }
{
    let mut total = 0;
    for item in items {
        total += item.size_of_item();
    }
    total
}
