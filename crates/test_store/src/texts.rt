//! Texts of SQL: the tables and rows of both versions, and tables of other names.

/// Version 1's tables but that of classes.
pub const FIRST_TABLES: &str =
    "CREATE TABLE message (number INTEGER PRIMARY KEY, body BLOB NOT NULL) STRICT; CREATE TABLE record (number INTEGER PRIMARY KEY, message INTEGER NOT NULL, path TEXT NOT NULL, day INTEGER NOT NULL, destroyed INTEGER NOT NULL) STRICT; CREATE TABLE hold (name TEXT NOT NULL, record INTEGER NOT NULL, PRIMARY KEY (name, record)) STRICT; CREATE TABLE meta (key TEXT NOT NULL PRIMARY KEY, value TEXT NOT NULL) STRICT";

/// The table of classes of both versions.
pub const CLASSES: &str =
    "CREATE TABLE class (path TEXT NOT NULL PRIMARY KEY, is_open INTEGER NOT NULL, schedule TEXT) STRICT";

/// Version 1's rows: two live records of one message, a destroyed one whose message is gone, and a hold.
pub const FIRST_ROWS: &str =
    "INSERT INTO meta VALUES ('version', '1'), ('root', 'permanent'); INSERT INTO class VALUES ('unfiled', 1, NULL), ('tax', 0, '1 years destroy'); INSERT INTO message VALUES (2, x'6162'); INSERT INTO record VALUES (1, 1, 'tax', 19675, 1), (2, 2, 'tax', 19675, 0), (3, 2, 'unfiled', 19675, 0); INSERT INTO hold VALUES ('case', 3)";

/// Due days for version 1, with a row that is no record's.
pub const FIRST_DUES: &str =
    "CREATE TABLE due_day (record INTEGER PRIMARY KEY, day INTEGER NOT NULL) STRICT; CREATE INDEX due_by_day ON due_day (day, record); INSERT INTO due_day VALUES (3, 8)";

/// Version 1's rows with a record whose number is the last but one.
pub const LAST_ROWS: &str =
    "INSERT INTO meta VALUES ('version', '1'), ('root', 'permanent'); INSERT INTO class VALUES ('unfiled', 1, NULL), ('tax', 1, NULL); INSERT INTO message VALUES (4294967294, x'61'); INSERT INTO record VALUES (4294967294, 4294967294, 'tax', 19675, 0)";

/// The table of schedules of version 2.
pub const SCHEDULES: &str =
    "CREATE TABLE schedule (path TEXT NOT NULL PRIMARY KEY, count INTEGER NOT NULL, unit INTEGER NOT NULL, action INTEGER NOT NULL, year_end INTEGER NOT NULL) STRICT";

/// The due days of version 2, and the rows of an archive without records.
pub const SECOND_ROWS: &str =
    "CREATE TABLE due_day (record INTEGER PRIMARY KEY, day INTEGER NOT NULL) STRICT; CREATE INDEX due_by_day ON due_day (day, record); INSERT INTO meta VALUES ('version', '2'); INSERT INTO class VALUES ('tax', 1, NULL), ('unfiled', 1, NULL); INSERT INTO schedule VALUES ('', 0, 0, 0, 0)";

/// A table of another name, with two keys and a row.
pub const TWO_KEYS: &str =
    "CREATE TABLE a (b INTEGER PRIMARY KEY, c UNIQUE); INSERT INTO a VALUES (1, 'x')";

/// A table of another name, with an index that refers to it, and a row.
pub const INDEXED: &str =
    "CREATE TABLE d (e REFERENCES a); CREATE INDEX f ON d (e); INSERT INTO d VALUES (1)";

/// A table of another name, with a view and a row.
pub const VIEWED: &str =
    "CREATE TABLE g (h TEXT NOT NULL PRIMARY KEY) STRICT; CREATE VIEW i AS SELECT h FROM g; INSERT INTO g VALUES ('y')";
