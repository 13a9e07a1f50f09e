// What no clause says: that the tasks do what their orders are for, on a real store and beside other clients.
mod orders;
mod quorums;
mod rows;
mod spelling;
mod table;
mod telling;
mod world;

use std::test::Fail;

#[test]
fn streams_locks_and_ledgers(rt: HostRuntime) -> Result<(), Fail> {
    let alloc = rt.alloc();
    assert_eq!(rt; table::first_wrong(alloc, rows::NAMES)?, None);
    Ok(())
}

#[test]
fn points_and_purges(rt: HostRuntime) -> Result<(), Fail> {
    let alloc = rt.alloc();
    assert_eq!(rt; table::first_wrong(alloc, rows::POINTS)?, None);
    Ok(())
}

#[test]
fn quorums_and_places(rt: HostRuntime) -> Result<(), Fail> {
    let alloc = rt.alloc();
    assert_eq!(rt; quorums::first_wrong(alloc, rows::QUORUMS)?, None);
    Ok(())
}
