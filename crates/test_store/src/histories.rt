//! A store with a history: its lines and marks as SQL shows them, and as `sha256sum` gives them.

use crate::answers::{Call, answer};
use crate::stages::execute;
use record_noted::{NotedStore, OpenFault, Opened};
use record_store::Store;
use sqlite::{Alter, Connection};
use std::test::Fail;

const FIRST: &[u8] = b"1 2031-01-01T09:30:00Z ann held audit 1 : order 12/3";

const SECOND: &[u8] = b"2 2031-01-01T09:31:00Z bob held case 1";

const SECOND_MARK: &[u8] = b"de9647962dee6991be4fb01ec6080cb3af527ad2a82c451845cbbb459f309534";

/// Whether a page from the second event on has this one alone.
fn is_second_read<S: Alter + Drop>(noted: &mut NotedStore<S>) -> bool {
    let Ok(events) = noted.events(2, 10) else {
        return false;
    };
    events.len() == 1
        && events.iter().all(|event| {
            event.number == 2
                && event.line.as_slice() == SECOND
                && event.mark.as_slice() == SECOND_MARK
        })
}

#[test]
fn histories(rt: HostRuntime) -> Result<(), Fail> {
    let alloc = rt.alloc();
    let conn = Connection::open_in_memory(alloc)?;
    if !conn.is_autocommit() {
        return Err(Fail::from("a transaction goes on"));
    }
    let Ok(mut store) = Store::create(alloc, conn) else {
        return Err(Fail::from("not created"));
    };
    assert_eq!(rt;
        answer(alloc, &mut store, Call::Capture("one"))?.as_str(),
        "1 never; "
    );
    let Ok(Opened::Plain(store)) = NotedStore::open(alloc, store) else {
        return Err(Fail::from("a history of no table"));
    };
    let Ok(mut noted) = NotedStore::begin(alloc, store) else {
        return Err(Fail::from("no history"));
    };
    assert!(rt; noted.hold(FIRST, b"audit", 1).is_ok());
    assert!(rt; noted.hold(SECOND, b"audit", 1).is_err());
    assert!(rt; noted.hold(SECOND, b"audit", 2).is_err());
    assert!(rt; noted.hold(SECOND, b"case", 1).is_ok());
    let mut store = noted.into_store();
    assert_eq!(rt;
        answer(alloc, &mut store, Call::Hold("case", 1))?.as_str(),
        "refused 86"
    );
    let Ok(Opened::Noted(mut noted)) = NotedStore::open(alloc, store) else {
        return Err(Fail::from("not opened"));
    };
    assert_eq!(rt; noted.next(), 3);
    assert!(rt; noted.mark() == SECOND_MARK);
    assert!(rt; is_second_read(&mut noted));
    let mut conn = noted.into_store().into_connection();
    execute(
        &mut conn,
        &[
            "CREATE TABLE wanted (number INTEGER PRIMARY KEY, line TEXT NOT NULL, mark TEXT NOT NULL) STRICT",
            "INSERT INTO wanted VALUES (1, '1 2031-01-01T09:30:00Z ann held audit 1 : order 12/3', '5e7c47d418734268924e140c633389c1162cf1757710aa387ee237ce191e294a'), (2, '2 2031-01-01T09:31:00Z bob held case 1', 'de9647962dee6991be4fb01ec6080cb3af527ad2a82c451845cbbb459f309534')",
            "CREATE TABLE same (n INTEGER NOT NULL CHECK (n = 2))",
            "INSERT INTO same SELECT count(*) FROM event",
            "INSERT INTO same SELECT count(*) FROM event JOIN wanted ON event.number = wanted.number AND event.line = wanted.line AND event.mark = wanted.mark",
        ],
    )
}

#[test]
fn tables_of_other_events(rt: HostRuntime) -> Result<(), Fail> {
    let alloc = rt.alloc();
    let mut conn = Connection::open_in_memory(alloc)?;
    execute(
        &mut conn,
        &["CREATE TABLE event (number INTEGER PRIMARY KEY, line TEXT NOT NULL) STRICT"],
    )?;
    if !conn.is_autocommit() {
        return Err(Fail::from("a transaction goes on"));
    }
    let Ok(store) = Store::create(alloc, conn) else {
        return Err(Fail::from("not created"));
    };
    assert!(rt;
        matches!(
            NotedStore::open(alloc, store),
            Err((OpenFault::NoHistory, _))
        )
    );
    Ok(())
}
