//! How a test goes through its stages.

use crate::answers::{Call, answer};
use record_store::{ArchiveRefusal, Store, StoreFault};
use sqlite::{Alter, Connection};
use std::alloc::Global;
use std::process::Abort;
use std::test::Fail;

/// A stage of a test: what is done to the database, and then the calls of a store that adopts it.
#[derive(Clone, Copy)]
pub struct Stage {
    /// Texts of SQL that the database refuses.
    pub refused: &'static [&'static str],
    /// Texts of SQL that it executes.
    pub texts: &'static [&'static str],
    /// The calls, each with its answer.
    pub calls: &'static [(Call, &'static str)],
}

/// Checks that a database refuses each of these texts.
fn check_refused<S: Alter>(rt: &impl Abort, conn: &mut Connection<S>, texts: &[&str]) {
    for text in texts {
        assert!(rt; conn.execute_batch(*text).is_err());
    }
}

/// Executes texts of SQL.
pub fn execute<S: Alter>(conn: &mut Connection<S>, texts: &[&str]) -> Result<(), Fail> {
    for text in texts {
        conn.execute_batch(*text)?;
    }
    Ok(())
}

/// The store that adopts a database.
fn adopted<S: Alter + Drop>(alloc: Global, conn: Connection<S>) -> Result<Store<S>, Fail> {
    if !conn.is_autocommit() {
        return Err(Fail::from("a transaction goes on"));
    }
    match Store::adopt(alloc, conn) {
        Ok(store) => Ok(store),
        Err(_) => Err(Fail::from("not adopted")),
    }
}

/// Whether a database is refused as no archive, and its connection can still be used.
pub fn is_refused<S: Alter + Drop>(alloc: Global, conn: Connection<S>) -> Result<bool, Fail> {
    if !conn.is_autocommit() {
        return Err(Fail::from("a transaction goes on"));
    }
    match Store::adopt(alloc, conn) {
        Err((StoreFault::Refused(ArchiveRefusal::NoArchive), mut back)) => {
            back.execute_batch("CREATE TABLE later (x)")?;
            Ok(true)
        }
        _ => Ok(false),
    }
}

/// Makes calls of a store, and checks its answers.
fn check_calls<S: Alter>(
    rt: &impl Abort,
    alloc: Global,
    store: &mut Store<S>,
    calls: &[(Call, &str)],
) -> Result<(), Fail> {
    for (call, wanted) in calls {
        assert_eq!(rt; answer(alloc, store, *call)?.as_str(), *wanted);
    }
    Ok(())
}

/// Takes a database through a stage.
fn pass<S: Alter + Drop>(
    rt: &impl Abort,
    alloc: Global,
    conn: Connection<S>,
    stage: &Stage,
) -> Result<Connection<S>, Fail> {
    let mut conn = conn;
    check_refused(rt, &mut conn, stage.refused);
    execute(&mut conn, stage.texts)?;
    let mut store = adopted(alloc, conn)?;
    check_calls(rt, alloc, &mut store, stage.calls)?;
    Ok(store.into_connection())
}

/// Takes a database through stages.
pub fn pass_all<S: Alter + Drop>(
    rt: &impl Abort,
    alloc: Global,
    conn: Connection<S>,
    stages: &[Stage],
) -> Result<Connection<S>, Fail> {
    let mut conn = conn;
    for stage in stages {
        conn = pass(rt, alloc, conn, stage)?;
    }
    Ok(conn)
}
