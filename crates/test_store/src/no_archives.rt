//! Databases that are refused with 88, since they have no archive.

use crate::stages::{Stage, execute, is_refused, pass_all};
use crate::texts::{
    CLASSES, FIRST_ROWS, FIRST_TABLES, INDEXED, SCHEDULES, SECOND_ROWS, TWO_KEYS, VIEWED,
};
use sqlite::Connection;
use std::alloc::Global;
use std::process::Abort;
use std::test::Fail;

/// Databases of one kind: after its stages and texts, each of the last texts makes one that is no archive's.
struct Broken {
    stages: &'static [Stage],
    texts: &'static [&'static str],
    last: &'static [&'static str],
}

/// What breaks rows of version 1.
const BROKEN_FIRST: &[&str] = &[
    "DROP TABLE hold",
    "CREATE TABLE due_day (record INTEGER PRIMARY KEY, day INTEGER) STRICT",
    "CREATE TABLE schedule (path TEXT NOT NULL PRIMARY KEY, count INTEGER NOT NULL, unit INTEGER NOT NULL, action INTEGER NOT NULL, year_end INTEGER NOT NULL) STRICT",
    "CREATE TABLE Schedule (x)",
    "UPDATE record SET destroyed = 2 WHERE number = 2",
    "UPDATE record SET day = -1 WHERE number = 2",
    "UPDATE record SET number = 4294967296 WHERE number = 3",
    "UPDATE class SET is_open = 7",
    "UPDATE hold SET record = 4294967296",
    "UPDATE meta SET value = '7' WHERE key = 'version'",
    "UPDATE meta SET value = 'never' WHERE key = 'root'",
    "INSERT INTO meta VALUES ('more', '1')",
    "UPDATE class SET is_open = 0 WHERE path = 'unfiled'",
    "UPDATE class SET schedule = '0 days review' WHERE path = 'tax'",
    "UPDATE class SET path = 'other' WHERE path = 'tax'",
    "UPDATE record SET day = 84006 WHERE number = 2",
    "UPDATE record SET message = 3 WHERE number = 2",
    "DELETE FROM message",
    "INSERT INTO message VALUES (1, x'61')",
    "UPDATE hold SET record = 1",
];

/// What breaks rows of version 2.
const BROKEN_SECOND: &[&str] = &[
    "UPDATE meta SET value = '3'",
    "INSERT INTO schedule VALUES ('nowhere', 0, 0, 0, 0)",
    "UPDATE schedule SET unit = 4",
    "UPDATE class SET schedule = 'permanent'",
    "INSERT INTO hold VALUES ('case', 9)",
    "INSERT INTO message VALUES (1, x'61')",
];

/// The kinds: version 1, version 2 as a store creates it, version 2 beside other tables, and one table with a name of ours.
static KINDS: [Broken; 4] = [
    Broken {
        stages: &[],
        texts: &[FIRST_TABLES, CLASSES, FIRST_ROWS],
        last: BROKEN_FIRST,
    },
    Broken {
        stages: &[Stage {
            refused: &[],
            texts: &[],
            calls: &[],
        }],
        texts: &[],
        last: BROKEN_SECOND,
    },
    Broken {
        stages: &[],
        texts: &[
            TWO_KEYS,
            FIRST_TABLES,
            CLASSES,
            INDEXED,
            SCHEDULES,
            SECOND_ROWS,
            VIEWED,
        ],
        last: BROKEN_SECOND,
    },
    Broken {
        stages: &[],
        texts: &[],
        last: &["CREATE TABLE record (x)"],
    },
];

/// Checks that a database of a kind is refused after one of the last texts.
fn check(rt: &impl Abort, alloc: Global, kind: &Broken, last: &str) -> Result<(), Fail> {
    let mut conn = pass_all(rt, alloc, Connection::open_in_memory(alloc)?, kind.stages)?;
    execute(&mut conn, kind.texts)?;
    execute(&mut conn, &[last])?;
    assert!(rt; is_refused(alloc, conn)?, "at {last}");
    Ok(())
}

/// Checks all databases of a kind.
fn check_kind(rt: &impl Abort, alloc: Global, kind: &Broken) -> Result<(), Fail> {
    for last in kind.last {
        check(rt, alloc, kind, *last)?;
    }
    Ok(())
}

#[test]
fn no_archives(rt: HostRuntime) -> Result<(), Fail> {
    for kind in &KINDS {
        check_kind(&rt, rt.alloc(), kind)?;
    }
    Ok(())
}
