use dl_fields::fault::Fault;
use dl_fields::stop::Stop;
use dl_tree_msg::answer::{put_answer, read_answer, size_of_answer};
use dl_tree_msg::request::{put_request, read_request, size_of_request};
use dl_tree_msg::rule::PathRule;
use std::test::Fail;

/// Deletes the node `/conf` of any version.
const DELETE: [u8; 9] = [2, 0, 5, b'/', b'c', b'o', b'n', b'f', 0];

/// Lists the children of the root, and sets the node `/conf` to no bytes.
const MULTI: [u8; 20] = [
    7, 0, 2, 6, 0, 1, b'/', 3, 0, 5, b'/', b'c', b'o', b'n', b'f', 0, 0, 0, 0, 0,
];

/// A node had version 3.
const FAILED: [u8; 12] = [7, 0, 1, 3, 0, 0, 0, 0, 0, 0, 0, 3];

/// How a rule refuses the bytes of a request: by how many bytes are left at it.
fn refusal(rt: &HostRuntime, rule: PathRule, bytes: &[u8]) -> Option<Stop> {
    match read_request(rt.alloc(), rule, bytes) {
        Ok(_) => None,
        Err(stop) => Some(stop),
    }
}

#[test]
fn keeps_the_configuration(rt: HostRuntime) -> Result<(), Fail> {
    let at_delete = Some(Stop::Fault(Fault::Bad(8)));
    let at_set = Some(Stop::Fault(Fault::Bad(12)));
    let kind = Some(Stop::Fault(Fault::Bad(1)));
    assert_eq!(rt; refusal(&rt, PathRule::All, &DELETE), None);
    assert_eq!(rt; refusal(&rt, PathRule::All, &MULTI), None);
    assert_eq!(rt; refusal(&rt, PathRule::AllButConf, &DELETE), at_delete);
    assert_eq!(rt; refusal(&rt, PathRule::AllButConf, &MULTI), at_set);
    assert_eq!(rt; refusal(&rt, PathRule::All, &[8]), kind);
    Ok(())
}

#[test]
fn reads_and_writes_a_request(rt: HostRuntime) -> Result<(), Fail> {
    let alloc = rt.alloc();
    match read_request(alloc, PathRule::All, &MULTI) {
        Ok((op, rest)) => {
            let mut out = Vec::new(alloc);
            put_request(alloc, &mut out, &op)?;
            assert_eq!(rt; out.as_slice(), MULTI.as_slice());
            assert_eq!(rt; size_of_request(&op), 20);
            assert_eq!(rt; rest.len(), 0);
        }
        Err(_) => assert!(rt; false),
    }
    Ok(())
}

#[test]
fn reads_and_writes_an_answer(rt: HostRuntime) -> Result<(), Fail> {
    let alloc = rt.alloc();
    match read_answer(alloc, &FAILED) {
        Ok((answer, rest)) => {
            let mut out = Vec::new(alloc);
            put_answer(alloc, &mut out, &answer)?;
            assert_eq!(rt; out.as_slice(), FAILED.as_slice());
            assert_eq!(rt; size_of_answer(&answer), 12);
            assert_eq!(rt; rest.len(), 0);
        }
        Err(_) => assert!(rt; false),
    }
    Ok(())
}
