ghost use Rattle.std.specs.Prelude.{◌≡◌};
ghost use Rattle.std.specs.Iterator.{YieldsFirstRef, item_count};
ghost use Rattle.dl_pool.specs.Pools.{pages_of};
ghost use Rattle.dl_pool.specs.Pages.{parts_in, walk, IsReadable};

use crate::pages::{PAGE, read_page};
use std::marker::Model;

/// The parts of a piece, page by page, as slices of the pool's own memory. Contracts see it as the list of the parts that
/// are left.
#[derive(Drop)]
pub struct Parts<'a> {
    memory: &'a [u8],
    links: &'a [u32],
    page: u32,
    left: usize,
}

impl<'a> Model for Parts<'a> {
    ghost use Rattle.std.specs.Prelude.{List, ℕ};
    ghost use Rattle.dl_pool.specs.Pools.{pages_of};
    ghost use Rattle.dl_pool.specs.Pages.{parts_in, walk, IsReadable};

    ghost Value = { List (List ℕ) };

    ghost view = { λ p. parts_in p.memory.now (walk p.links.now p.page (pages_of p.left)) p.left };

    ghost invariant = { λ p. IsReadable p.memory.now p.links.now p.page p.left };
}

impl<'a> Parts<'a> {
    /// The parts of so many bytes that begin at this page.
    pub(crate) fn new(memory: &'a [u8], links: &'a [u32], page: u32, left: usize) -> Parts<'a>
        requires { IsReadable memory.now links.now page left }
        ensures { result
            ≡ parts_in memory.entry.now (walk links.entry.now page (pages_of left)) left }
    {
        Parts {
            memory,
            links,
            page,
            left,
        }
    }
}

impl<'a> Iterator for Parts<'a> {
    type Item = &'a [u8];

    ghost next_gives = { YieldsFirstRef (λ s. s) };

    ghost remaining = { item_count (λ s. s) };

    fn next(&mut self) -> Option<&'a [u8]> {
        if self.left == 0 {
            return None;
        }
        let count = self.left.min(PAGE);
        let part = read_page(self.memory, self.page, count);
        self.page = self.links[self.page as usize];
        self.left -= count;
        Some(part)
    }
}
