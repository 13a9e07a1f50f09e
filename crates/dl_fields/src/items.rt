ghost use Rattle.std.specs.Prelude.{◌≡◌, ℕ, List, Result};
ghost use Rattle.dl_fields.specs.declared.fault.Fault.{Fault};
ghost use Rattle.dl_fields.specs.Readers.{Gives};
ghost use Rattle.dl_fields.specs.Lists.{items_from};

use crate::stop::Stop;
use std::alloc::Global;

/// How the things of a list are read: each of them by the same reader, which may keep a rule for them.
pub trait ItemReader {
    /// A thing of the list.
    type Item: Drop;

    /// The reading of a thing at the front of the bytes.
    ghost from: { Self → List ℕ → Result (Self.Item × List ℕ) Fault };

    /// The thing at the front, and the bytes behind it.
    fn read_item<'a>(&self, alloc: Global, bytes: &'a [u8]) -> Result<(Self::Item, &'a [u8]), Stop>
        ensures { Gives (λ x. (x.0, x.1.now)) result (from self.now bytes.now) };
}

/// So many things at the front, and the bytes behind them. The fault is that of the first thing that has one.
pub fn read_items<'a, R: ItemReader>(
    alloc: Global,
    reader: &R,
    count: u32,
    bytes: &'a [u8],
) -> Result<(Vec<R::Item>, &'a [u8]), Stop>
    ensures { Gives (λ x. (x.0.items, x.1.now)) result
        (items_from (R.from reader.now) count bytes.now) }
{
    let mut items = Vec::new(alloc);
    let mut rest = bytes;
    for _ in 0..count {
        let (item, more) = reader.read_item(alloc, rest)?;
        items.push(item)?;
        rest = more;
    }
    Ok((items, rest))
}
