ghost use Rattle.std.specs.Prelude.{◌≡◌, ◌+◌, ◌<◌, ◌^◌, All, IfOk, OnOk, length};
ghost use Rattle.dl_machine.specs.Lines.{is_end, is_end_before, is_on, first_mail, comes_before, with_mail, links};
ghost use Rattle.dl_links.specs.Mails.{mail_of, mails_of, IsSpot};

use dl_msg::letter::Letter;
use dl_types::address::Address;
use dl_types::memory::NoMemory;
use std::alloc::Global;

/// How many letters a link has.
#[derive(Clone, Copy, Debug, PartialEq, Eq)]
pub struct Mail {
    /// Who sent them.
    pub from: Address,
    /// Who is to take them.
    pub to: Address,
    /// How many there are.
    pub count: u32,
}

/// Where the link of a letter stands among others in their order, or is to stand.
#[derive(Clone, Copy)]
enum Spot {
    /// It is there, behind so many.
    Here(usize),
    /// It is to come behind so many.
    Before(usize),
}

/// Whether two ends of links are the same.
fn is_end(end: Address, other: Address) -> bool
    ensures { result ≡ is_end end other }
{
    end == other
}

/// Whether one end of a link is shown before another.
fn is_end_before(end: Address, other: Address) -> bool
    ensures { result ≡ is_end_before end other }
{
    end < other
}

impl Mail {
    /// The link of a letter, which is its first.
    fn first(letter: &Letter) -> Mail
        ensures { mail_of result ≡ first_mail letter.now }
    {
        Mail {
            from: letter.from,
            to: letter.to,
            count: 1,
        }
    }

    /// Whether a letter is on the link.
    fn has(&self, letter: &Letter) -> bool
        ensures { result ≡ is_on self.now.from self.now.to letter.now }
    {
        is_end(self.from, letter.from) && is_end(self.to, letter.to)
    }

    /// Whether the link of a letter is shown before this one.
    fn is_after(&self, letter: &Letter) -> bool
        ensures { result ≡ comes_before letter.now (mail_of self.now) }
    {
        is_end_before(letter.from, self.from)
            || (is_end(letter.from, self.from) && is_end_before(letter.to, self.to))
    }
}

/// Where the link of a letter stands among others, or is to stand.
fn spot_of(mails: &[Mail], letter: &Letter) -> Spot
    ensures { IsSpot letter.now mails.now result }
{
    for (index, mail) in mails.iter().enumerate() {
        if mail.has(letter) {
            return Spot::Here(index);
        }
        if mail.is_after(letter) {
            return Spot::Before(index);
        }
    }
    Spot::Before(mails.len())
}

/// Counts one more letter on links in their order.
fn add(mails: &mut Vec<Mail>, letter: &Letter) -> Result<(), NoMemory>
    requires { All (λ m. m.count + 1 < 2 ^ 32) mails.old.items }
    ensures { OnOk result
        (mails_of mails.new.items ≡ with_mail letter.now (mails_of mails.old.items)) }
{
    match spot_of(mails.as_slice(), letter) {
        Spot::Here(index) => {
            let mail = &mut mails[index];
            mail.count += 1;
        }
        Spot::Before(index) => mails.insert(index, Mail::first(letter))?,
    }
    Ok(())
}

/// The links that have some of these letters, with their counts, in their order.
pub(crate) fn mails_in(alloc: Global, letters: &[Letter]) -> Result<Vec<Mail>, NoMemory>
    requires { length letters.now < 2 ^ 32 }
    ensures { IfOk result (λ v. mails_of v.items ≡ links letters.now) }
{
    let mut mails = Vec::new(alloc);
    for step in 0..letters.len() {
        add(&mut mails, &letters[letters.len() - 1 - step])?;
    }
    Ok(mails)
}
