// What no clause says: worked rows of the table of storage nodes, and that each call succeeds.
mod damage;
mod messages;
mod rows;
mod table;
mod telling;
mod world;
mod written;

use std::test::Fail;

#[test]
fn messages_commits_and_loads(rt: HostRuntime) -> Result<(), Fail> {
    let alloc = rt.alloc();
    assert_eq!(rt; table::first_wrong(alloc, rows::WORKED)?, None);
    assert_eq!(rt; table::first_wrong(alloc, written::RANDOM)?, None);
    Ok(())
}

#[test]
fn stops_damage_and_want_of_pages(rt: HostRuntime) -> Result<(), Fail> {
    let alloc = rt.alloc();
    assert_eq!(rt; table::first_wrong(alloc, rows::STOPS)?, None);
    assert_eq!(rt; table::first_wrong(alloc, rows::DAMAGE)?, None);
    assert_eq!(rt; table::first_wrong(alloc, written::SPOILT)?, None);
    assert_eq!(rt; table::first_wrong(alloc, rows::ROOM)?, None);
    Ok(())
}

#[test]
fn want_of_room_in_tables(rt: HostRuntime) -> Result<(), Fail> {
    let alloc = rt.alloc();
    assert_eq!(rt; table::first_wrong(alloc, rows::TABLES)?, None);
    Ok(())
}
