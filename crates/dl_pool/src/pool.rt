ghost use Rattle.std.specs.Prelude.{◌≡◌, ◌↔◌, ◌<◌, ◌+◌, ℕ, List, slice_index};
ghost use Rattle.std.specs.Prelude.{IfOk, OnErr, IsErr, Some, length};
ghost use Rattle.std.specs.List.{concat};
ghost use Rattle.std.specs.Option.{ForSome};
ghost use Rattle.dl_pool.specs.Pools.{empty_pool, bytes_at, spare, pages_of, IsLive, Adds};

use crate::pages::{PAGE, fill, follow, pages_of};
use crate::parts::Parts;
use crate::pool_full::PoolFull;
use crate::span::Span;
use dl_types::memory::NoMemory;
use std::alloc::{AllocError, Global};
use std::marker::Model;

/// Pages of 4,096 bytes that are taken once, and hold pieces of bytes. A piece takes whole pages, which need not be
/// neighbours. Contracts see a pool as the number of its pages and a map from live spans to their bytes. All empty pieces
/// are one piece, which needs no page and is always there.
#[derive(Drop)]
pub struct Pool {
    /// The bytes of the pages in order, up to the last one that was ever used. There is room for all pages from the start,
    /// and a page is written when it is first used.
    memory: Vec<u8>,
    /// For each page the one after it, in its piece or among the free ones.
    next: Vec<u32>,
    /// For each page the bytes of the piece that begins there, 0 where none does.
    lengths: Vec<usize>,
    /// The first of the free pages.
    free: u32,
    /// How many pages are free.
    spare: u32,
}

impl Model for Pool {
    ghost use Rattle.std.specs.Prelude.{vec_capacity};
    ghost use Rattle.dl_pool.specs.Pools.{Held};
    ghost use Rattle.dl_pool.specs.Pages.{pool_of, IsKept};

    ghost Value = { Held };

    ghost view = { λ p. pool_of p.memory.items p.next.items p.lengths.items };

    ghost invariant = { λ p.
        IsKept p.memory.items (vec_capacity p.memory) p.next.items p.lengths.items p.free p.spare };
}

/// The numbers from 1 on, so many.
fn numbers_from_one(alloc: Global, count: u32) -> Result<Vec<u32>, AllocError>
    ensures size { IfOk result (λ v. length v.items ≡ count) }
    ensures each { IfOk result (λ v. (k : ℕ) → k < count → slice_index v.items k ≡ k + 1) }
{
    let mut numbers = Vec::with_capacity(alloc, count as usize)?;
    for number in 0..count {
        numbers.push(number + 1)?;
    }
    Ok(numbers)
}

impl Pool {
    /// A pool of so many free pages. No other call of a pool takes memory.
    pub fn new(alloc: Global, pages: u32) -> Result<Pool, NoMemory>
        ensures { IfOk result (λ p. p ≡ empty_pool pages) }
    {
        let memory = Vec::with_capacity(alloc, pages as usize * PAGE)?;
        let next = numbers_from_one(alloc, pages)?;
        let lengths = vec![in alloc; 0usize; pages as usize]?;
        Ok(Pool {
            memory,
            next,
            lengths,
            free: 0,
            spare: pages,
        })
    }

    /// Copies the bytes into free pages. `PoolFull` comes exactly where fewer pages are free than the bytes need, and then
    /// nothing changes.
    pub fn put(&mut self, bytes: &[u8]) -> Result<Span, PoolFull>
        ensures full { IsErr result ↔ (spare self.old < pages_of (length bytes.now)) }
        ensures ok { IfOk result (λ span. Adds self.old span bytes.now self.new) }
        ensures err { OnErr result (self.new ≡ self.old) }
    {
        let needed = pages_of(bytes.len());
        if (self.spare as usize) < needed {
            return Err(PoolFull);
        }
        if bytes.is_empty() {
            return Ok(Span::new(0));
        }
        let first = self.free;
        self.free = fill(&mut self.memory, &self.next, first, bytes);
        self.lengths[first as usize] = bytes.len();
        self.spare -= needed as u32;
        Ok(Span::new(first + 1))
    }

    /// The parts of a piece, in order, page by page: slices of the pool's own memory, copied nowhere.
    pub fn parts(&self, span: &Span) -> Parts<'_>
        requires { IsLive self.now span.now }
        ensures joined { Some (concat result) ≡ bytes_at self.now span.now }
        ensures pages { length result ≡ pages_of (length (concat result)) }
    {
        let number = span.number();
        if number == 0 {
            return Parts::new(&self.memory, &self.next, 0, 0);
        }
        let first = number - 1;
        Parts::new(
            &self.memory,
            &self.next,
            first,
            self.lengths[first as usize],
        )
    }

    /// Copies a piece out.
    pub fn copy_out(&self, span: &Span, into: &mut [u8])
        requires live { IsLive self.now span.now }
        requires size { ForSome (bytes_at self.now span.now)
            (λ bytes. length bytes ≡ length into.old) }
        ensures { bytes_at self.now span.now ≡ Some into.new }
    {
        let mut at = 0;
        for part in self.parts(span) {
            into[at..at + part.len()].copy_from_slice(part);
            at += part.len();
        }
    }

    /// Frees a piece: its pages are free again, and no other piece changes. This is `put` undone.
    pub fn free(&mut self, span: Span)
        requires { IsLive self.old span }
        ensures { (bytes : List ℕ) → bytes_at self.old span ≡ Some bytes
            → Adds self.new span bytes self.old }
    {
        let number = span.number();
        if number == 0 {
            return;
        }
        let first = number - 1;
        let needed = pages_of(self.lengths[first as usize]);
        let last = follow(&self.next, first, needed - 1);
        self.next[last as usize] = self.free;
        self.lengths[first as usize] = 0;
        self.free = first;
        self.spare += needed as u32;
    }

    /// How many pages are free.
    pub fn spare(&self) -> u32
        ensures { result ≡ spare self.now }
    {
        self.spare
    }
}
