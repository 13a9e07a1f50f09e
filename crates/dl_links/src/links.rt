ghost use Rattle.std.specs.Prelude.{◌≡◌, ◌<◌, ◌^◌, ◌↔◌, [], IsTrue, IfOk, OnOk, OnErr, length, slice_get};
ghost use Rattle.std.specs.Option.{option_copied};
ghost use Rattle.dl_machine.specs.Lines.{place_of, links};
ghost use Rattle.dl_links.specs.Mails.{mails_of};
ghost use Rattle.dl_links.specs.Sent.{none_sent, with_letter, with_delivery, next_from};

use crate::file::File;
use crate::files::Files;
use crate::mail::{Mail, mails_in};
use dl_msg::letter::Letter;
use dl_types::address::Address;
use dl_types::memory::NoMemory;
use std::alloc::Global;
use std::marker::Model;

/// All letters ever sent, in the order of sending, and which were delivered. A letter's place is how many were sent before it.
/// Contracts see the letters, and of each whether it was delivered.
#[derive(Drop)]
pub struct Links {
    letters: Vec<Letter>,
    delivered: Vec<bool>,
    files: Files,
}

impl Model for Links {
    ghost use Rattle.dl_links.specs.Sent.{Sent};
    ghost use Rattle.dl_links.specs.Keeping.{AreKept};

    ghost Value = { Sent };

    ghost view = { λ x. record { letters = x.letters.items; delivered = x.delivered.items } };

    ghost invariant = { λ x. AreKept x.letters.items x.delivered.items x.files };
}

impl Links {
    /// No letter was sent; no memory is taken.
    pub fn new(alloc: Global) -> Links
        ensures { result ≡ none_sent }
    {
        Links {
            letters: Vec::new(alloc),
            delivered: Vec::new(alloc),
            files: Files::new(alloc),
        }
    }

    /// How many letters were sent.
    pub fn len(&self) -> usize
        ensures letters { result ≡ length self.now.letters }
        ensures delivered { result ≡ length self.now.delivered }
    {
        self.letters.len()
    }

    /// Whether no letter was sent.
    pub fn is_empty(&self) -> bool
        ensures { IsTrue result ↔ (self.now.letters ≡ []) }
    {
        self.letters.is_empty()
    }

    /// The letter at a place.
    pub fn letter(&self, place: usize) -> Option<&Letter>
        ensures { option_copied result ≡ slice_get self.now.letters place }
    {
        self.letters.get(place)
    }

    /// The place of the letter with a number, from 1, on the link from one node to another.
    pub fn place_of(&self, from: Address, to: Address, number: u32) -> Option<usize>
        ensures { result ≡ place_of self.now.letters from to number }
    {
        if number == 0 {
            return None;
        }
        match self
            .files
            .place_at(File::Link { from, to }, number as usize - 1)
        {
            Some(place) => Some(place as usize),
            None => None,
        }
    }

    /// Sends a letter: it is the last one, and waits. Where memory runs out, none was sent.
    pub fn send(&mut self, alloc: Global, letter: Letter) -> Result<(), NoMemory>
        requires { length self.old.letters < 2 ^ 32 }
        ensures ok { OnOk result (self.new ≡ with_letter self.old letter) }
        ensures err { OnErr result (self.new ≡ self.old) }
    {
        self.letters.reserve(1)?;
        self.delivered.reserve(1)?;
        let place = self.letters.len() as u32;
        // the check finds the types of a letter's fields where one is named
        let _to: Address = letter.to;
        self.files.put(alloc, &letter, place)?;
        self.letters.push_reserved(letter);
        self.delivered.push_reserved(false);
        Ok(())
    }

    /// Marks the letter at a place as delivered.
    pub fn deliver(&mut self, place: usize)
        requires { place < length self.old.letters }
        ensures { self.new ≡ with_delivery self.old place }
    {
        self.delivered[place] = true;
    }

    /// The place of the first letter that was never delivered and is in one of these files, such as the inboxes of those that can
    /// take letters. It costs the number of files, and what was delivered of them since the last call.
    pub fn next(&mut self, files: &[File]) -> Option<usize>
        ensures first { result ≡ next_from files.now 0 self.old.letters self.old.delivered }
        ensures same { self.new ≡ self.old }
    {
        match self.files.first_in(files, self.delivered.as_slice()) {
            Some(place) => Some(place as usize),
            None => None,
        }
    }

    /// The links that have letters, with their counts: by the sender, and then by the receiver, clients by their numbers before
    /// bookies by theirs and the metadata node. It walks over all letters.
    pub fn mail(&self, alloc: Global) -> Result<Vec<Mail>, NoMemory>
        requires { length self.now.letters < 2 ^ 32 }
        ensures { IfOk result (λ v. mails_of v.items ≡ links self.now.letters) }
    {
        mails_in(alloc, self.letters.as_slice())
    }
}
