ghost use Rattle.std.specs.Prelude.{◌≡◌, ◌≢◌, ℕ, ◌+◌, ◌*◌, ◌<◌, ◌≤◌, []};
ghost use Rattle.std.specs.Prelude.{◌∷◌, length, take, drop, vec_capacity};
ghost use Rattle.dl_pool.specs.Pools.{pages_of};
ghost use Rattle.std.specs.List.{concat};
ghost use Rattle.dl_pool.specs.Pages.{page_bytes, walk, page_after, times};
ghost use Rattle.dl_pool.specs.Pages.{parts_in, HasPage, HasPages, WritesPages};

/// How many bytes a page has.
pub const PAGE: usize = 4096;

/// How many pages a piece of so many bytes needs.
#[tactic(auto, unfolding(crate::specs::Pools::pages_of))]
pub fn pages_of(bytes: usize) -> usize
    ensures { result ≡ pages_of bytes }
{
    bytes.div_ceil(PAGE)
}

/// Writes a part of a piece to the front of a page, in the room that was taken for it.
fn write_page(memory: &mut Vec<u8>, page: u32, part: &[u8])
    requires part { length part.now ≤ 4096 }
    requires room { page * 4096 + 4096 ≤ vec_capacity memory.old }
    ensures here { take (length part.now) (drop (page * 4096) memory.new.items) ≡ part.now }
    ensures page { HasPage memory.new.items page }
    ensures writes { WritesPages memory.old.items memory.new.items (page ∷ []) }
    ensures capacity { vec_capacity memory.old ≤ vec_capacity memory.new }
{
    reach(memory, page);
    overwrite_page(memory, page, part);
}

/// Makes the memory reach to the end of a page, in the room that was taken for it.
fn reach(memory: &mut Vec<u8>, page: u32)
    requires { page * 4096 + 4096 ≤ vec_capacity memory.old }
    ensures page { HasPage memory.new.items page }
    ensures kept { take (length memory.old.items) memory.new.items ≡ memory.old.items }
    ensures capacity { vec_capacity memory.old ≤ vec_capacity memory.new }
{
    let end = page as usize * PAGE + PAGE;
    if memory.len() < end {
        memory.resize(end, 0).unwrap();
    }
}

/// Writes a part of a piece over the front of a page.
fn overwrite_page(memory: &mut [u8], page: u32, part: &[u8])
    requires part { length part.now ≤ 4096 }
    requires page { HasPage memory.old page }
    ensures here { take (length part.now) (drop (page * 4096) memory.new) ≡ part.now }
    ensures others { (other : ℕ) → other ≢ page
        → page_bytes memory.new other ≡ page_bytes memory.old other }
{
    let start = page as usize * PAGE;
    memory[start..start + part.len()].copy_from_slice(part);
}

/// The front of a page.
pub fn read_page(memory: &[u8], page: u32, count: usize) -> &[u8]
    requires count { count ≤ 4096 }
    requires page { HasPage memory.now page }
    ensures { result.now ≡ take count (drop (page * 4096) memory.now) }
{
    let start = page as usize * PAGE;
    &memory[start..start + count]
}

/// Writes a piece into the pages of a chain, from this one on, in the room that was taken for all pages, and tells the page
/// that comes after them.
#[tactic(auto, unfolding(crate::specs::Pools::pages_of))]
pub fn fill(memory: &mut Vec<u8>, next: &[u32], first: u32, bytes: &[u8]) -> u32
    requires room { length next.now * 4096 ≤ vec_capacity memory.old }
    requires within { (page : ℕ) →
        0 < times page (walk next.now first (pages_of (length bytes.now)))
        → page < length next.now }
    requires once { (page : ℕ)
        → times page (walk next.now first (pages_of (length bytes.now))) ≤ 1 }
    ensures after { result ≡ page_after next.now first (pages_of (length bytes.now)) }
    ensures here { let chain = walk next.now first (pages_of (length bytes.now)) in
        concat (parts_in memory.new.items chain (length bytes.now)) ≡ bytes.now }
    ensures pages { HasPages memory.new.items (walk next.now first (pages_of (length bytes.now))) }
    ensures writes { WritesPages memory.old.items memory.new.items
        (walk next.now first (pages_of (length bytes.now))) }
    ensures capacity { vec_capacity memory.old ≤ vec_capacity memory.new }
{
    let mut page = first;
    for index in 0..pages_of(bytes.len()) {
        let rest = &bytes[index * PAGE..];
        write_page(memory, page, &rest[..rest.len().min(PAGE)]);
        page = next[page as usize];
    }
    page
}

/// The page that comes so many links after this one.
pub fn follow(next: &[u32], first: u32, links: usize) -> u32
    requires { (page : ℕ) → 0 < times page (walk next.now first links) → page < length next.now }
    ensures { result ≡ page_after next.now first links }
{
    let mut page = first;
    for step in 0..links {
        page = next[page as usize];
    }
    page
}
