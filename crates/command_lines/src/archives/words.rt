//! The subcommands of `mailfile-store`, each with its words and an example.

ghost use Rattle.std.specs.Prelude.{◌≡◌, IfOk, List, map};
ghost use Rattle.command_lines.specs.StoreTable.{capturing as capturing_shapes, conditions as condition_arguments, judging as judging_shapes, keeping as keeping_shapes, reading as reading_shapes, store_app, telling as telling_shapes};
ghost use Rattle.command_lines.specs.Tables.{app_of_table, argument_of_word, shape_of_table};
ghost use Rattle.command_lines.specs.declared.table.Word.{Word as TheWord};

use super::approvals::{APPROVED, STRAYS};
use super::capture_words::{AT, LIMIT, MAILDIR, OFFICER, QUIET, RULES, TIMES, UNFILED_ON_FAULT};
use super::class_words::{NEW_TITLES, TO};
use super::history_words::{
    ACCEPT_FOUND, BEGIN, BEGIN_REASON, BY, CHOSEN_BY, DEEDS, EVENTS_SINCE, HEAD, REASON,
    REQUIRE_REASON, WAIVE_REASON,
};
use super::import_words::{AGAIN, AS_IS, DATED, SOURCES, VERBOSE};
use super::names;
use super::question_words::{CONDITIONS, FROM, HINTS, NUMBER, NUMBERS};
use crate::table::{FLAG, OPTION, PLACE, Program, Subcommand, Word};
use std::alloc::{AllocError, Global};

pub const STORE: Word = Word {
    name: names::STORE,
    value: "FILE",
    is_required: true,
    help: Some("The file of the store, or the folder of its volumes"),
    ..OPTION
};

pub const PLAN_FILE: Word = Word {
    name: names::PLAN_FILE,
    value: "PLAN",
    is_required: true,
    substitute: Some("adopt"),
    help: Some("The file of the plan"),
    conflict: Some("adopt"),
    ..OPTION
};

/// A store that becomes the first volume of a new one.
pub const ADOPT: Word = Word {
    name: names::ADOPT,
    value: "FILE",
    help: Some(
        "With --roll: moves the store in this file, which keeps its plan and its history, to the folder as its first volume",
    ),
    ..OPTION
};

/// The size of the volumes of a new store.
pub const ROLL: Word = Word {
    name: names::ROLL,
    value: "SIZE",
    help: Some(
        "Makes a folder of volumes instead, each a file of about this size, as 32M; the next one begins where the last is over it",
    ),
    ..OPTION
};

const CREATE: Subcommand = Subcommand {
    name: "create",
    about: "Makes a new store with a plan, in a file that only its owner may read and write",
    example: "Example: mailfile-store create --store records.db --plan plan.toml",
    words: &[STORE, PLAN_FILE, ROLL, ADOPT, BY, REASON],
    has_shared: false,
};

pub const YES: Word = Word {
    name: names::YES,
    ..FLAG
};

pub const DAY: Word = Word {
    name: names::DAY,
    value: "YYYY-MM-DD",
    ..OPTION
};

pub const NEW_PLAN: Word = Word {
    name: names::NEW_PLAN,
    value: "PLAN",
    help: Some("The file of the plan that replaces it"),
    ..OPTION
};

const PLAN: Subcommand = Subcommand {
    name: "plan",
    about: "Prints the plan of a store as the text of a plan file, or replaces it",
    example: "Example: mailfile-store plan --store records.db > plan.toml",
    words: &[
        STORE,
        NEW_PLAN,
        Word {
            help: Some("Replaces it without asking"),
            ..YES
        },
        BY,
        REASON,
    ],
    has_shared: false,
};

const DELIVER: Subcommand = Subcommand {
    name: "deliver",
    about: "Captures the message on standard input, and prints its records",
    example: "Example: mailfile-store deliver --store records.db --rules rules ann < mail.eml",
    words: &[
        STORE,
        AT,
        LIMIT,
        RULES,
        UNFILED_ON_FAULT,
        AS_IS,
        BY,
        REASON,
        OFFICER,
    ],
    has_shared: false,
};

const INTAKE: Subcommand = Subcommand {
    name: "intake",
    about: "Captures each message in MAILDIR/new, and moves it to MAILDIR/cur once its records are in the file",
    example: "Example: mailfile-store intake --store records.db --rules rules ann Maildir",
    words: &[
        STORE,
        AT,
        LIMIT,
        RULES,
        UNFILED_ON_FAULT,
        QUIET,
        TIMES,
        BY,
        REASON,
        OFFICER,
        MAILDIR,
    ],
    has_shared: false,
};

const IMPORT: Subcommand = Subcommand {
    name: "import",
    about: "Captures old mail: each message of mboxes, folders of .eml files and Maildirs, once",
    example: "Example: mailfile-store import --store records.db --rules rules --dated received ann old.mbox",
    words: &[
        STORE,
        DATED,
        LIMIT,
        RULES,
        UNFILED_ON_FAULT,
        AGAIN,
        VERBOSE,
        QUIET,
        BY,
        REASON,
        OFFICER,
        SOURCES,
    ],
    has_shared: false,
};

pub const HEADERS: Word = Word {
    name: names::HEADERS,
    help: Some("Adds the sender, the subject and the date of each message's header"),
    ..FLAG
};

pub const ONLY_NUMBERS: Word = Word {
    name: names::ONLY_NUMBERS,
    help: Some("Prints the numbers alone, a line each"),
    ..FLAG
};

pub const COUNT: Word = Word {
    name: names::COUNT,
    help: Some("Prints how many records there are"),
    ..FLAG
};

pub const CSV: Word = Word {
    name: names::CSV,
    help: Some("Prints rows of CSV, with a header"),
    ..FLAG
};

pub const JSON: Word = Word {
    name: names::JSON,
    help: Some("Prints an array of JSON objects"),
    conflict: Some("csv"),
    ..FLAG
};

pub const TWICE: Word = Word {
    name: names::TWICE,
    help: Some(
        "Records that are not destroyed whose message was captured a second time, octet by octet, together with those of the other one",
    ),
    ..FLAG
};

const LIST: Subcommand = Subcommand {
    name: "list",
    about: "Prints a line for each record: number, class, day, due date or never, holds, and whether it is destroyed",
    example: "Example: mailfile-store list --store records.db --sender müller --live",
    words: &[
        STORE,
        FROM,
        HEADERS,
        CSV,
        JSON,
        ONLY_NUMBERS,
        COUNT,
        TWICE,
        NUMBERS,
    ],
    has_shared: true,
};

pub const FIELDS: Word = Word {
    name: names::FIELDS,
    help: Some("Prints the fields of its header, as the archive reads them"),
    ..FLAG
};

const SHOW: Subcommand = Subcommand {
    name: "show",
    about: "Prints the message of a record, octet by octet",
    example: "Example: mailfile-store show --store records.db 1 > mail.eml",
    words: &[STORE, FIELDS, NUMBER],
    has_shared: false,
};

pub const SORT: Word = Word {
    name: names::SORT,
    value: "ORDER",
    help: Some(
        "The order of index.html: number, date (that of the header) or sender; by number if none is given",
    ),
    ..OPTION
};

pub const FOLDER: Word = Word {
    name: names::FOLDER,
    value: "FOLDER",
    help: Some("The folder of the export, which is made where there is none"),
    ..PLACE
};

const EXPORT: Subcommand = Subcommand {
    name: "export",
    about: "Writes the messages of records to a folder, with manifest.csv, SHA256SUMS and index.html; replaces nothing",
    example: "Example: mailfile-store export --store records.db --class finance for-court",
    words: &[STORE, FROM, SORT, FOLDER, NUMBERS],
    has_shared: true,
};

pub const NEW: Word = Word {
    name: names::NEW,
    value: "NEW",
    help: Some("The file of the new store"),
    ..PLACE
};

pub const DAMAGED: Word = Word {
    name: names::DAMAGED,
    help: Some("Copies messages too that are not the ones that were captured, as they are"),
    ..FLAG
};

const COPY: Subcommand = Subcommand {
    name: "copy",
    about: "Makes a new store with the same archive, without the octets of what was destroyed",
    example: "Example: mailfile-store copy --store records.db backup.db",
    words: &[STORE, DAMAGED, NEW],
    has_shared: false,
};

const CHECK: Subcommand = Subcommand {
    name: "check",
    about: "Checks a whole store, and prints its totals; with --rules checks rules instead, and prints nothing for good ones, else FILE:LINE:COLUMN: NUMBER: TEXT for each fault, with status 65",
    example: "Example: mailfile-store check --store records.db",
    words: &[
        STORE,
        Word {
            is_required: false,
            help: Some(
                "Checks the rules of this folder, as deliver reads them, by the plan of the store",
            ),
            ..RULES
        },
        Word {
            is_required: false,
            help: Some("The officer whose rules are checked; all officers if none is given"),
            ..OFFICER
        },
        HEAD,
    ],
    has_shared: false,
};

pub const FORMERLY: Word = Word {
    name: names::FORMERLY,
    value: "FOLDER",
    help: Some(
        "The folder of the rules as they were: shows the first test or command that differs",
    ),
    ..OPTION
};

const WHY: Subcommand = Subcommand {
    name: "why",
    about: "Says why a record is in its class, and whether the rules of today file its message there again",
    example: "Example: mailfile-store why --store records.db --rules rules ann 1",
    words: &[
        STORE,
        Word {
            help: Some("The folder of the rules, as of deliver"),
            ..RULES
        },
        FORMERLY,
        OFFICER,
        NUMBER,
    ],
    has_shared: false,
};

/// The name of a hold.
pub const NAME: Word = Word {
    name: names::NAME,
    value: "NAME",
    help: Some(
        "The name of the hold, as audit: 1 to 64 visible characters of ASCII, no blank; a new one may not read as numbers, as 12",
    ),
    ..PLACE
};

const HOLD: Subcommand = Subcommand {
    name: "hold",
    about: "Keeps records from destruction by a hold of that name",
    example: "Example: mailfile-store hold --store records.db --until 2026-06-30 audit",
    words: &[STORE, BY, REASON, NAME, NUMBERS],
    has_shared: true,
};

pub const ALL: Word = Word {
    name: names::ALL,
    help: Some("Ends the hold on each record that has it: lists these records, and asks"),
    ..FLAG
};

const RELEASE: Subcommand = Subcommand {
    name: "release",
    about: "Ends the hold of that name on records",
    example: "Example: mailfile-store release --store records.db audit 1 5-9",
    words: &[
        STORE,
        ALL,
        Word {
            help: Some("With --all, ends it without asking"),
            ..YES
        },
        BY,
        REASON,
        NAME,
        NUMBERS,
    ],
    has_shared: true,
};

const REFILE: Subcommand = Subcommand {
    name: "refile",
    about: "Gives records another class of the plan: shows what that changes, and asks; their numbers, days of capture and holds stay",
    example: "Example: mailfile-store refile --store records.db --to staff --reason mistake 17",
    words: &[
        STORE,
        TO,
        Word {
            help: Some("Gives it without asking"),
            ..YES
        },
        BY,
        Word {
            is_required: true,
            ..REASON
        },
        NUMBERS,
    ],
    has_shared: true,
};

const HOLDS: Subcommand = Subcommand {
    name: "holds",
    about: "Lists the holds: the name of each, how many records it keeps, and, from the history, since when, by whom and for what reason",
    example: "Example: mailfile-store holds --store records.db",
    words: &[
        STORE,
        Word {
            conflict: None,
            ..JSON
        },
    ],
    has_shared: false,
};

const DISPOSE: Subcommand = Subcommand {
    name: "dispose",
    about: "Lists the records that are due and may be destroyed, all or those of some numbers; with --yes destroys them, and prints a certificate for each. A range passes over what may not be destroyed",
    example: "Example: mailfile-store dispose --store records.db --yes >> certificates.txt",
    words: &[
        STORE,
        Word {
            help: Some(
                "The day by which records are due, which is not later than today; today if none is given",
            ),
            ..DAY
        },
        Word {
            help: Some("Destroys the records"),
            ..YES
        },
        Word {
            help: Some(
                "With --yes, destroys records too whose messages are not the ones that were captured",
            ),
            ..DAMAGED
        },
        APPROVED,
        BY,
        REASON,
        NUMBERS,
    ],
    has_shared: false,
};

const REPORT: Subcommand = Subcommand {
    name: "report",
    about: "Prints a page of HTML: classes with their counts, what is due when, holds, and what is due by a day, for signature",
    example: "Example: mailfile-store report --store records.db --day 2026-12-31 > report.html",
    words: &[
        STORE,
        Word {
            help: Some(
                "The day by which records are due, which may be later than today; today if none is given",
            ),
            ..DAY
        },
    ],
    has_shared: true,
};

const TITLES: Subcommand = Subcommand {
    name: "titles",
    about: "Prints the titles of classes and the legal bases of their schedules, from the history, or gives them by a file",
    example: "Example: mailfile-store titles --store records.db --set titles.toml",
    words: &[
        STORE,
        NEW_TITLES,
        Word {
            conflict: Some("set"),
            ..JSON
        },
        BY,
        REASON,
    ],
    has_shared: false,
};

const HISTORY: Subcommand = Subcommand {
    name: "history",
    about: "Prints what was done to an archive, a line for each event, as they are hashed; all, or those of the records of some numbers",
    example: "Example: mailfile-store history --store records.db --deeds destroyed",
    words: &[
        STORE,
        BEGIN,
        REQUIRE_REASON,
        WAIVE_REASON,
        ACCEPT_FOUND,
        CHOSEN_BY,
        BEGIN_REASON,
        EVENTS_SINCE,
        DEEDS,
        Word {
            conflict: None,
            ..JSON
        },
        NUMBERS,
    ],
    has_shared: false,
};

const CERTIFICATES: Subcommand = Subcommand {
    name: "certificates",
    about: "Prints a certificate for each record that was destroyed, from the history",
    example: "Example: mailfile-store certificates --store records.db 17",
    words: &[STORE, NUMBERS],
    has_shared: false,
};

/// The subcommands that make a store and capture mail.
const CAPTURING: &[Subcommand] = &[CREATE, PLAN, DELIVER, INTAKE, IMPORT];

/// Those that read records.
const READING: &[Subcommand] = &[LIST, SHOW, EXPORT, COPY];

/// Those that judge what was done.
const JUDGING: &[Subcommand] = &[CHECK, WHY];

/// Those that decide how long records are kept.
const KEEPING: &[Subcommand] = &[HOLD, RELEASE, REFILE, DISPOSE, REPORT];

/// Those that tell what was done, what is held, and what classes are called.
const TELLING: &[Subcommand] = &[HOLDS, TITLES, HISTORY, CERTIFICATES];

fn telling() -> &'static [Subcommand]
    ensures { (shared : List TheWord) → map (shape_of_table shared) result.now ≡ telling_shapes }
{
    TELLING
}

fn capturing() -> &'static [Subcommand]
    ensures { (shared : List TheWord) → map (shape_of_table shared) result.now ≡ capturing_shapes }
{
    CAPTURING
}

fn reading() -> &'static [Subcommand]
    ensures { (shared : List TheWord) → map (shape_of_table shared) result.now
        ≡ reading_shapes (map argument_of_word shared) }
{
    READING
}

fn judging() -> &'static [Subcommand]
    ensures { (shared : List TheWord) → map (shape_of_table shared) result.now ≡ judging_shapes }
{
    JUDGING
}

fn keeping() -> &'static [Subcommand]
    ensures { (shared : List TheWord) → map (shape_of_table shared) result.now
        ≡ keeping_shapes (map argument_of_word shared) }
{
    KEEPING
}

fn conditions() -> &'static [Word]
    ensures { map argument_of_word result.now ≡ condition_arguments }
{
    CONDITIONS
}

/// The whole command line, with all subcommands.
pub fn program(alloc: Global) -> Result<Program, AllocError>
    ensures { IfOk result (λ p. app_of_table p ≡ store_app) }
{
    Ok(Program {
        name: "mailfile-store",
        about: "Runs an archive of e-mail in a file: captures, lists, shows, exports, holds and destroys records",
        groups: vec![in alloc; capturing(), reading(), judging(), keeping(), telling()]?,
        shared: conditions(),
        hints: HINTS,
        strays: STRAYS,
    })
}
