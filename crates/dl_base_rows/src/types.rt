use dl_types::name::Name;
use dl_types::name_fault::NameFault;
use std::test::Fail;

/// Where bytes stop being a name, or 255 where they are one.
fn fault_at(rt: &HostRuntime, bytes: &[u8]) -> u8 {
    match Name::new(rt.alloc(), bytes) {
        Ok(_) => 255,
        Err(NameFault::BadName { at }) => at,
        Err(NameFault::NoMemory) => 254,
    }
}

#[test]
fn names_the_first_byte_that_breaks_the_form(rt: HostRuntime) -> Result<(), Fail> {
    let long = [b'a'; 65];
    assert_eq!(rt; fault_at(&rt, b"Ab"), 0);
    assert_eq!(rt; fault_at(&rt, b""), 0);
    assert_eq!(rt; fault_at(&rt, b"ab_9-C"), 5);
    assert_eq!(rt; fault_at(&rt, &long), 64);
    assert_eq!(rt; fault_at(&rt, &long[..64]), 255);
    Ok(())
}
