use dl_links::file::File;
use dl_links::laws::letters_stand;
use dl_links::links::Links;
use dl_msg::letter::Letter;
use dl_msg::msg::Msg;
use dl_types::address::Address;
use dl_types::bookie::BookieId;
use dl_types::client::ClientId;
use std::test::Fail;

/// The client that sends.
fn client() -> Address {
    Address::Client(ClientId::new(0))
}

/// The storage node that takes.
fn bookie() -> Address {
    Address::Bookie(BookieId::new(1))
}

/// A letter of the client in a session.
fn letter(to: Address, session: u64) -> Letter {
    Letter {
        from: client(),
        to,
        session,
        msg: Msg::AddOk {
            ledger: 0,
            entry: 0,
        },
    }
}

/// The inbox of the storage node.
fn inbox() -> File {
    File::Inbox {
        to: bookie(),
        session: 0,
    }
}

#[test]
fn letters_are_numbered_on_their_links(rt: HostRuntime) -> Result<(), Fail> {
    let alloc = rt.alloc();
    let mut links = Links::new(alloc);
    assert!(rt; links.is_empty());
    links.send(alloc, letter(bookie(), 1))?;
    links.send(alloc, letter(Address::Meta, 1))?;
    links.send(alloc, letter(bookie(), 2))?;
    assert_eq!(rt; links.len(), 3);
    assert_eq!(rt; links.place_of(client(), bookie(), 0), None);
    assert_eq!(rt; links.place_of(client(), bookie(), 1), Some(0));
    assert_eq!(rt; links.place_of(client(), bookie(), 2), Some(2));
    assert_eq!(rt; links.place_of(client(), Address::Meta, 1), Some(1));
    assert_eq!(rt; links.place_of(bookie(), client(), 1), None);
    assert!(rt; links.letter(2).is_some());
    letters_stand();
    Ok(())
}

#[test]
fn what_was_delivered_waits_no_more(rt: HostRuntime) -> Result<(), Fail> {
    let alloc = rt.alloc();
    let mut links = Links::new(alloc);
    links.send(alloc, letter(Address::Meta, 1))?;
    links.send(alloc, letter(bookie(), 1))?;
    links.send(alloc, letter(bookie(), 2))?;
    assert_eq!(rt; links.next(&[inbox()]), Some(1));
    links.deliver(1);
    assert_eq!(rt; links.next(&[inbox()]), Some(2));
    links.deliver(2);
    assert_eq!(rt; links.next(&[inbox()]), None);
    let mail = links.mail(alloc)?;
    assert_eq!(rt; mail.len(), 2);
    Ok(())
}
