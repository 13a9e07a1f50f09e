use dl_session::admit::Admit;
use dl_session::laws::{gone_is_gone, never_again, runs_once};
use dl_session::sessions::Sessions;
use std::test::Fail;

/// The last number run in a live session.
fn number_of(sessions: &Sessions, session: u64) -> u32 {
    match sessions.admit(session, 0) {
        Admit::Old => sessions.number(session),
        _ => 99,
    }
}

/// Whether this becomes of the requests of a session with these numbers.
fn admits(sessions: &Sessions, session: u64, rows: &[(u32, Admit)]) -> bool {
    rows.iter()
        .all(|(number, want)| sessions.admit(session, *number) == *want)
}

#[test]
fn sessions_are_given_once(rt: HostRuntime) -> Result<(), Fail> {
    gone_is_gone();
    let mut sessions = Sessions::new(rt.alloc())?;
    assert_eq!(rt; sessions.connect()?, 1);
    assert!(rt; sessions.last() < 10);
    assert_eq!(rt; sessions.connect()?, 2);
    assert_eq!(rt; sessions.expire(1), true);
    assert_eq!(rt; sessions.expire(1), false);
    assert_eq!(rt; sessions.live(), [2].as_slice());
    assert_eq!(rt; sessions.last(), 2);
    Ok(())
}

#[test]
fn numbers_rise(rt: HostRuntime) -> Result<(), Fail> {
    runs_once();
    never_again();
    let mut sessions = Sessions::new(rt.alloc())?;
    let session = sessions.connect()?;
    assert!(rt; admits(&sessions, session, &[(0, Admit::Old), (1, Admit::Run)]));
    assert!(rt; admits(&sessions, 2, &[(1, Admit::Expired)]));
    assert_eq!(rt; sessions.admit(session, 7), Admit::Run);
    sessions.ran(session, 7);
    assert!(rt;
        admits(
            &sessions,
            session,
            &[(6, Admit::Old), (7, Admit::Old), (8, Admit::Run)]
        )
    );
    assert_eq!(rt; number_of(&sessions, session), 7);
    Ok(())
}
