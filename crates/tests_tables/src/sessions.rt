use kr_base::{ConnId, SessionId};
use session_table::{SessionRefused, SessionTable};
use std::test::Fail;

// Two connections, 3 and 8. A row has a connection, what it asks of the table, and the answer: the
// number of the session, or 0 for a refusal; for a connection that leaves, its own number.
const CONVERSATION: &str = "\
8 open 0: 1
3 open 0: 2
8 open 0: 3
3 close 1: 0
8 close 1: 1
8 close 1: 0
8 close 4: 0
3 open 0: 4
8 leave 0: 8
8 close 3: 0
3 close 4: 4
8 open 0: 5
";

// The table's answer to a row.
fn answer(table: &mut SessionTable, row: &str) -> Result<u64, Fail> {
    let (owner, row) = row.split_once(' ').ok_or("owner")?;
    let (ask, session) = row.split_once(' ').ok_or("ask")?;
    let owner = ConnId(owner.parse::<u64>().ok().ok_or("owner")?);
    let session = session.parse::<u64>().ok().ok_or("session")?;
    match ask {
        "open" => Ok(table.open(owner)?.0),
        "close" => match table.close(SessionId(session), owner) {
            Ok(()) => Ok(session),
            Err(_) => Ok(0),
        },
        _ => {
            table.gone(owner);
            Ok(owner.0)
        }
    }
}

#[test]
fn two_connections_have_their_own_sessions(rt: HostRuntime) -> Result<(), Fail> {
    let mut table = SessionTable::new(rt.alloc());
    for row in CONVERSATION.lines() {
        let (asked, want) = row.split_once(": ").ok_or("row")?;
        let want = want.parse::<u64>().ok().ok_or("answer")?;
        let answer = answer(&mut table, asked)?;
        assert_eq!(rt; answer, want, "of {row}");
    }
    let sessions = table.rows()?;
    let rows = sessions.rows.as_slice();
    assert_eq!(rt; rows.len(), 2);
    assert_eq!(rt; (rows[0].owner.0, rows[0].session.0), (3, 2));
    assert_eq!(rt; (rows[1].owner.0, rows[1].session.0), (8, 5));
    assert_eq!(rt; sessions.next, 6);
    Ok(())
}

#[test]
fn a_65th_session_is_refused(rt: HostRuntime) -> Result<(), Fail> {
    let mut table = SessionTable::new(rt.alloc());
    for number in 1..65u64 {
        assert_eq!(rt; table.open(ConnId(1))?, SessionId(number));
    }
    assert!(rt; table.is_full(ConnId(1)));
    assert_eq!(rt; table.open(ConnId(1)), Err(SessionRefused::TooMany));
    assert_eq!(rt; table.open(ConnId(2))?, SessionId(65));
    assert!(rt; table.close(SessionId(7), ConnId(1)).is_ok());
    assert!(rt; !table.owned_by(SessionId(7), ConnId(1)));
    assert_eq!(rt; table.open(ConnId(1))?, SessionId(66));
    Ok(())
}
