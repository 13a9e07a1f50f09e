ghost use Rattle.std.specs.Prelude.{◌≡◌, ◌≤◌, ◌<◌, ◌++◌, ◌∷◌, [], IfOk, OnOk, length, slice_get, slice_index_or, vec_capacity, false};
ghost use Rattle.dl_links.specs.Waiting.{first_waiting, AreGone};

use dl_types::memory::NoMemory;
use std::alloc::Global;

/// The places of the letters of a file.
#[derive(Drop)]
pub struct Filed {
    /// The places, in the order of sending.
    pub places: Vec<u32>,
    /// How many of the first of them are past: they were delivered.
    pub gone: usize,
}

/// Whether the letter at a place was delivered.
fn was_delivered(delivered: &[bool], place: u32) -> bool
    ensures { result ≡ slice_index_or delivered.now place false }
{
    match delivered.get(place as usize) {
        Some(mark) => *mark,
        None => false,
    }
}

impl Filed {
    /// A file without a letter, with room for one.
    pub fn with_room(alloc: Global) -> Result<Filed, NoMemory>
        ensures places { IfOk result (λ f. f.places.items ≡ []) }
        ensures gone { IfOk result (λ f. f.gone ≡ 0) }
        ensures room { IfOk result (λ f. 1 ≤ vec_capacity f.places) }
    {
        let places = Vec::with_capacity(alloc, 1)?;
        Ok(Filed { places, gone: 0 })
    }

    /// The place before which so many others stand.
    pub fn place_at(&self, before: usize) -> Option<u32>
        ensures { result ≡ slice_get self.now.places.items before }
    {
        self.places.get(before).copied()
    }

    /// The first place of a letter that was never delivered. What is known to be past moves up to it.
    pub fn first_waiting(&mut self, delivered: &[bool]) -> Option<u32>
        requires { AreGone delivered.now self.old.places.items self.old.gone }
        ensures first { result ≡ first_waiting delivered.now self.old.places.items }
        ensures places { self.new.places ≡ self.old.places }
        ensures gone { AreGone delivered.now self.new.places.items self.new.gone }
    {
        while self.gone < self.places.len() {
            let place = self.places[self.gone];
            if !was_delivered(delivered, place) {
                return Some(place);
            }
            self.gone += 1;
        }
        None
    }
}
