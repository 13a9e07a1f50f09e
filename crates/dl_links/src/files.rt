ghost use Rattle.std.specs.Prelude.{◌≡◌, [], OnOk, OnErr, slice_get};
ghost use Rattle.dl_links.specs.Waiting.{earlier, first_waiting, AreGone};
ghost use Rattle.dl_links.specs.Tables.{places_in, gone_in, first_in, HasRoom, Stays, Pushes, Takes, Passes, AllGone};

use crate::file::File;
use crate::filed::Filed;
use dl_msg::letter::Letter;
use dl_types::memory::NoMemory;
use indexmap::IndexMap;
use std::alloc::Global;
use std::marker::Model;

/// The files that have letters, or had room made for one. Contracts see the list of the files with the places in them.
#[derive(Drop)]
pub struct Files {
    map: IndexMap<File, Filed>,
}

impl Model for Files {
    ghost use Rattle.std.specs.Prelude.{List};
    ghost use Rattle.dl_links.specs.declared.file.File.{File};
    ghost use Rattle.dl_links.specs.declared.filed.Filed.{Filed};

    ghost Value = { List (File × Filed) };

    ghost view = { λ t. t.map.entries };
}

/// The earlier of two places that there may be.
fn earlier(place: Option<u32>, other: Option<u32>) -> Option<u32>
    ensures { result ≡ earlier place other }
{
    match (place, other) {
        (Some(place), Some(other)) => Some(place.min(other)),
        (Some(place), None) => Some(place),
        (None, other) => other,
    }
}

impl Files {
    /// No file; no memory is taken.
    pub fn new(alloc: Global) -> Files
        ensures { result ≡ [] }
    {
        Files {
            map: IndexMap::new(alloc),
        }
    }

    /// The place of the letter of a file before which so many others of it stand.
    pub fn place_at(&self, file: File, before: usize) -> Option<u32>
        ensures { result ≡ slice_get (places_in self.now file) before }
    {
        match self.map.get(&file) {
            Some(filed) => filed.place_at(before),
            None => None,
        }
    }

    /// Makes room for one more place in a file.
    pub fn reserve(&mut self, alloc: Global, file: File) -> Result<(), NoMemory>
        ensures ok { OnOk result (HasRoom self.new file) }
        ensures stays { Stays self.old self.new }
    {
        if let Some(filed) = self.map.get_mut(&file) {
            filed.places.reserve(1)?;
            return Ok(());
        }
        let filed = Filed::with_room(alloc)?;
        self.map.insert(file, filed)?;
        Ok(())
    }

    /// Puts a place behind those of a file, in the room that was made for it.
    pub fn push(&mut self, file: File, place: u32)
        requires { HasRoom self.old file }
        ensures { Pushes self.old self.new file place }
    {
        if let Some(filed) = self.map.get_mut(&file) {
            filed.places.push_reserved(place);
        }
    }

    /// Files a letter that is sent: its place comes behind those of its link and of its inbox.
    pub fn put(&mut self, alloc: Global, letter: &Letter, place: u32) -> Result<(), NoMemory>
        ensures ok { OnOk result (Takes self.old self.new letter.now place) }
        ensures err { OnErr result (Stays self.old self.new) }
    {
        self.reserve(alloc, File::link_of(letter))?;
        self.reserve(alloc, File::inbox_of(letter))?;
        self.push(File::link_of(letter), place);
        self.push(File::inbox_of(letter), place);
        Ok(())
    }

    /// The first place of a file whose letter was never delivered.
    pub fn first_waiting(&mut self, file: File, delivered: &[bool]) -> Option<u32>
        requires { AreGone delivered.now (places_in self.old file) (gone_in self.old file) }
        ensures first { result ≡ first_waiting delivered.now (places_in self.old file) }
        ensures passes { Passes delivered.now self.old self.new }
    {
        match self.map.get_mut(&file) {
            Some(filed) => filed.first_waiting(delivered),
            None => None,
        }
    }

    /// The first place of several files whose letter was never delivered.
    pub fn first_in(&mut self, files: &[File], delivered: &[bool]) -> Option<u32>
        requires { AllGone delivered.now self.old }
        ensures first { result ≡ first_in delivered.now self.old files.now }
        ensures passes { Passes delivered.now self.old self.new }
    {
        let mut first = None;
        for file in files {
            first = earlier(first, self.first_waiting(*file, delivered));
        }
        first
    }
}
