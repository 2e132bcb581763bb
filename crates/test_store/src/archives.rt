//! Databases from which a store is adopted: of version 1, of version 2, and without an archive; alone, and with tables of
//! other names before, between and after ours.

use crate::answers::Call;
use crate::stages::{Stage, execute, pass_all};
use crate::texts::{
    CLASSES, FIRST_DUES, FIRST_ROWS, FIRST_TABLES, INDEXED, LAST_ROWS, SCHEDULES, SECOND_ROWS,
    TWO_KEYS, VIEWED,
};
use sqlite::Connection;
use std::alloc::Global;
use std::process::Abort;
use std::test::Fail;

/// A database, and what it goes through.
struct Archive {
    texts: &'static [&'static str],
    stages: &'static [Stage],
}

/// The plan of `tax`, destroyed after a year.
const ONE_YEAR: &str =
    "root = \"permanent\"\n[[class]]\npath = \"tax\"\nschedule = \"1 years destroy\"\n";

/// The same, and `later`, which is closed and destroyed after two years.
const TWO_CLASSES: &str =
    "root = \"permanent\"\n[[class]]\npath = \"tax\"\nschedule = \"1 years destroy\"\n[[class]]\npath = \"later\"\nopen = false\nschedule = \"2 years destroy\"\n";

/// The rows of version 1 are moved over, and are there when the store is adopted again.
const MOVED: &[Stage] = &[
    Stage {
        refused: &[],
        texts: &[],
        calls: &[
            (Call::Due(20_040), ""),
            (Call::Due(20_041), "2 due 20041; "),
            (Call::Message(1), "refused 84"),
            (Call::Message(3), "ab"),
            (Call::Hold("case", 3), "refused 86"),
            (Call::Release("case", 2), "refused 85"),
            (Call::Destroy(3, 20_041), "refused 81"),
            (Call::Destroy(2, 20_040), "refused 82"),
        ],
    },
    Stage {
        refused: &[],
        texts: &[],
        calls: &[
            (Call::CaptureInBoth("next"), "4 due 20041; 5 never; "),
            (Call::Message(5), "next"),
        ],
    },
];

/// The calls that make and change an archive, from no record on.
const CHANGES: Stage = Stage {
    refused: &[],
    texts: &[],
    calls: &[
        (Call::Revise(ONE_YEAR), "ok"),
        (Call::AddClass("later"), "ok"),
        (Call::CaptureInBoth("one"), "1 due 20041; 2 never; "),
        (Call::CaptureInBoth("two"), "3 due 20041; 4 never; "),
        (Call::Hold("case", 3), "ok"),
        (Call::Due(20_041), "1 due 20041; "),
        (Call::Destroy(3, 20_041), "refused 81"),
        (Call::Release("case", 3), "ok"),
        (Call::Due(20_041), "1 due 20041; 3 due 20041; "),
        (Call::Destroy(1, 20_041), "ok"),
    ],
};

/// What these changes leave.
const CHANGED: Stage = Stage {
    refused: &[],
    texts: &[],
    calls: &[
        (Call::Due(60_000), "3 due 20041; "),
        (Call::Message(2), "one"),
        (Call::Message(4), "two"),
        (
            Call::Entries(1, 9),
            "1 tax 19675 1 destroyed; 2 unfiled 19675 1 live; 3 tax 19675 due 20041 3 live; 4 unfiled 19675 3 live; ",
        ),
    ],
};

/// Records get other classes: to a due day, to none and to another one. A hold stays, and a refusal changes nothing.
const REFILED: Stage = Stage {
    refused: &[],
    texts: &[],
    calls: &[
        (Call::Revise(TWO_CLASSES), "ok"),
        (Call::Hold("case", 2), "ok"),
        (Call::Refile(9, "taxes"), "refused 80"),
        (Call::Refile(1, "taxes"), "refused 84"),
        (Call::Refile(2, "taxes"), "refused 59"),
        (Call::Due(60_000), "3 due 20041; "),
        (Call::Refile(4, "tax"), "ok"),
        (Call::Refile(2, "later"), "ok"),
        (Call::Due(60_000), "3 due 20041; 4 due 20041; "),
        (Call::Refile(3, "unfiled"), "ok"),
        (Call::Refile(4, "later"), "ok"),
        (Call::Refile(4, "later"), "ok"),
        (Call::Due(60_000), "4 due 20406; "),
        (Call::Destroy(2, 20_406), "refused 81"),
        (Call::Destroy(3, 60_000), "refused 83"),
        (Call::Destroy(4, 20_405), "refused 82"),
        (Call::Message(4), "two"),
    ],
};

/// What these leave.
const IN_OTHER_CLASSES: Stage = Stage {
    refused: &[],
    texts: &[],
    calls: &[
        (
            Call::Entries(1, 9),
            "1 tax 19675 1 destroyed; 2 later 19675 due 20406 1 live case; 3 unfiled 19675 3 live; 4 later 19675 due 20406 3 live; ",
        ),
        (Call::Release("case", 2), "ok"),
        (Call::Due(60_000), "2 due 20406; 4 due 20406; "),
        (Call::Destroy(4, 20_406), "ok"),
        (Call::Message(3), "two"),
    ],
};

/// The table of two keys still has its row, of which no key can be taken again.
const OTHER_ROW: Stage = Stage {
    refused: &[
        "INSERT INTO a VALUES (1, 'z')",
        "INSERT INTO a VALUES (2, 'x')",
    ],
    texts: &["INSERT INTO a VALUES (2, 'z')"],
    calls: &[],
};

/// An archive alone is changed.
const ALONE: &[Stage] = &[CHANGES, CHANGED];

/// The same of an archive beside the table of two keys.
const BESIDE: &[Stage] = &[CHANGES, CHANGED, OTHER_ROW];

/// An archive whose records get other classes.
static REFILINGS: Archive = Archive {
    texts: &[FIRST_TABLES, CLASSES, SCHEDULES, SECOND_ROWS],
    stages: &[CHANGES, REFILED, IN_OTHER_CLASSES],
};

/// The due days of an archive with one message.
const ONE_INVOICE: &[(Call, &str)] = &[
    (Call::Revise(ONE_YEAR), "ok"),
    (Call::CaptureInBoth("invoice"), "1 due 20041; 2 never; "),
];

/// Due days that are wrong are put right when the store is adopted again.
const WRONG_DUES: Stage = Stage {
    refused: &[],
    texts: &["UPDATE due_day SET day = 7; INSERT INTO due_day VALUES (9, 9)"],
    calls: &[
        (Call::Due(20_040), ""),
        (Call::Due(60_000), "1 due 20041; "),
    ],
};

/// Records are listed in pages.
const PAGES: Stage = Stage {
    refused: &[],
    texts: &["INSERT INTO hold VALUES ('b', 2), ('audit', 3), ('a', 2)"],
    calls: &[
        (
            Call::Entries(0, usize::MAX),
            "1 tax 19675 1 destroyed; 2 tax 19675 due 20041 2 live a b; 3 unfiled 19675 2 live audit case; ",
        ),
        (
            Call::Entries(1, 2),
            "1 tax 19675 1 destroyed; 2 tax 19675 due 20041 2 live a b; ",
        ),
        (Call::Entries(3, 2), "3 unfiled 19675 2 live audit case; "),
        (Call::Entries(1, 1), "1 tax 19675 1 destroyed; "),
        (Call::Entries(1, 0), ""),
        (Call::Entries(4, 9), ""),
        (Call::Entries(u32::MAX, 9), ""),
    ],
};

/// The last number of a record is given once.
const LAST_NUMBER: Stage = Stage {
    refused: &[],
    texts: &[],
    calls: &[
        (Call::CaptureInBoth("two"), "refused 87"),
        (Call::Capture("one"), "4294967295 never; "),
        (Call::Capture("more"), "refused 87"),
    ],
};

static ARCHIVES: [Archive; 14] = [
    Archive {
        texts: &[FIRST_TABLES, CLASSES, FIRST_ROWS],
        stages: MOVED,
    },
    Archive {
        texts: &[FIRST_TABLES, CLASSES, FIRST_ROWS, FIRST_DUES],
        stages: MOVED,
    },
    Archive {
        texts: &[
            TWO_KEYS,
            FIRST_TABLES,
            CLASSES,
            INDEXED,
            FIRST_ROWS,
            FIRST_DUES,
            VIEWED,
        ],
        stages: MOVED,
    },
    Archive {
        texts: &[FIRST_TABLES, CLASSES, SCHEDULES, SECOND_ROWS],
        stages: ALONE,
    },
    Archive {
        texts: &[TWO_KEYS, FIRST_TABLES, CLASSES, SCHEDULES, SECOND_ROWS],
        stages: BESIDE,
    },
    Archive {
        texts: &[FIRST_TABLES, CLASSES, TWO_KEYS, SCHEDULES, SECOND_ROWS],
        stages: BESIDE,
    },
    Archive {
        texts: &[FIRST_TABLES, CLASSES, SCHEDULES, SECOND_ROWS, TWO_KEYS],
        stages: BESIDE,
    },
    Archive {
        texts: &[
            TWO_KEYS,
            FIRST_TABLES,
            CLASSES,
            INDEXED,
            SCHEDULES,
            SECOND_ROWS,
            VIEWED,
        ],
        stages: BESIDE,
    },
    Archive {
        texts: &[SCHEDULES, FIRST_TABLES, CLASSES, SECOND_ROWS],
        stages: ALONE,
    },
    Archive {
        texts: &["CREATE TABLE a (b); CREATE VIEW v AS SELECT b FROM a"],
        stages: &[Stage {
            refused: &[],
            texts: &[],
            calls: &[(Call::Capture("first"), "1 never; ")],
        }],
    },
    Archive {
        texts: &[FIRST_TABLES, CLASSES, LAST_ROWS],
        stages: &[LAST_NUMBER],
    },
    Archive {
        texts: &[FIRST_TABLES, CLASSES, FIRST_ROWS],
        stages: &[PAGES],
    },
    Archive {
        texts: &[],
        stages: &[
            Stage {
                refused: &[],
                texts: &[],
                calls: ONE_INVOICE,
            },
            WRONG_DUES,
        ],
    },
    Archive {
        texts: &[],
        stages: &[
            Stage {
                refused: &[],
                texts: &[],
                calls: &[],
            },
            Stage {
                refused: &[],
                texts: &["CREATE TABLE later (x)"],
                calls: ONE_INVOICE,
            },
            WRONG_DUES,
        ],
    },
];

/// Takes an archive through its stages.
fn check(rt: &impl Abort, alloc: Global, archive: &Archive) -> Result<(), Fail> {
    let mut conn = Connection::open_in_memory(alloc)?;
    execute(&mut conn, archive.texts)?;
    let _left = pass_all(rt, alloc, conn, archive.stages)?;
    Ok(())
}

#[test]
fn archives(rt: HostRuntime) -> Result<(), Fail> {
    for archive in &ARCHIVES {
        check(&rt, rt.alloc(), archive)?;
    }
    Ok(())
}

#[test]
fn records_get_other_classes(rt: HostRuntime) -> Result<(), Fail> {
    check(&rt, rt.alloc(), &REFILINGS)
}
