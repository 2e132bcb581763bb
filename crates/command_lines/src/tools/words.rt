//! The subcommands of `mailfile-tool`, each with its words and an example.

ghost use Rattle.std.specs.Prelude.{◌≡◌, IfOk, List, map};
ghost use Rattle.command_lines.specs.Tables.{app_of_table, shape_of_table};
ghost use Rattle.command_lines.specs.ToolTable.{tool_app, tools};
ghost use Rattle.command_lines.specs.declared.table.Word.{Word as TheWord};

use super::names;
use crate::table::{FLAG, Form, OPTION, PLACE, Program, Subcommand, Word};
use std::alloc::{AllocError, Global};

pub const PERSONAL: Word = Word {
    name: names::PERSONAL,
    value: "DIR",
    help: Some("The officer's own scripts, NAME.sieve each"),
    conflict: Some("rules"),
    ..OPTION
};

pub const GLOBAL: Word = Word {
    name: names::GLOBAL,
    value: "DIR",
    help: Some("The scripts that every officer can include, NAME.sieve each"),
    conflict: Some("rules"),
    ..OPTION
};

/// The folder of all rules.
pub const RULES: Word = Word {
    name: names::RULES,
    value: "FOLDER",
    help: Some(
        "The folder of all rules, as of mailfile-store deliver: OFFICER/main.sieve, and global/NAME.sieve for all officers; an officer is named in place of a script",
    ),
    ..OPTION
};

pub const SCRIPT: Word = Word {
    name: names::SCRIPT,
    value: "SCRIPT",
    ..PLACE
};

pub const IMAGE: Word = Word {
    name: names::IMAGE,
    value: "IMAGE",
    ..PLACE
};

pub const COMMANDS: Word = Word {
    name: names::COMMANDS,
    value: "FILE",
    is_required: false,
    help: Some("The file of commands; standard input if none is given"),
    ..PLACE
};

const FRAME: Subcommand = Subcommand {
    name: "frame",
    about: "Reads commands with @PATH in place of lengths, and writes the octets of a session",
    example: "Example: printf 'FILE @main.sieve @mail.eml\\n' | mailfile-tool frame | mailfile",
    words: &[COMMANDS],
    has_shared: false,
};

/// The script that was refused.
pub const REFUSED: Word = Word {
    name: names::REFUSED,
    value: "FILE",
    help: Some("The script that was refused: offsets in it are shown as line and column"),
    ..OPTION
};

pub const NUMBERS: Word = Word {
    name: names::NUMBERS,
    help: Some("Prints the texts of all numbers, and reads nothing"),
    ..FLAG
};

pub const NUMBER: Word = Word {
    name: names::NUMBER,
    value: "NUMBER",
    is_required: false,
    help: Some("Prints the texts of this number, and reads nothing"),
    ..PLACE
};

const EXPLAIN: Subcommand = Subcommand {
    name: "explain",
    about: "Reads replies, and writes them with a text after each number of a refusal or fault",
    example: "Example: mailfile < officer.session | mailfile-tool explain",
    words: &[REFUSED, NUMBERS, NUMBER],
    has_shared: false,
};

pub const FILES: Word = Word {
    name: names::FILES,
    form: Form::Places,
    value: "FILE",
    is_required: false,
    help: Some("Scripts, and plans by the ending .toml; - is standard input, a script"),
    ..PLACE
};

/// The plan that a new one is to replace.
pub const PRESENT_PLAN: Word = Word {
    name: names::PRESENT_PLAN,
    value: "FILE",
    help: Some(
        "The present plan: classes that it does not have, or that are closed, are faults of a script, and those that a plan leaves out are faults of the plan",
    ),
    ..OPTION
};

const CHECK: Subcommand = Subcommand {
    name: "check",
    about: "Checks scripts, and plans by the ending .toml: prints nothing for good ones, else FILE:LINE:COLUMN: NUMBER: TEXT for each fault, with status 1",
    example: "Example: mailfile-tool check --plan plan.toml --rules rules ann",
    words: &[FILES, PRESENT_PLAN, RULES, PERSONAL, GLOBAL],
    has_shared: false,
};

pub const OUTPUT: Word = Word {
    name: names::OUTPUT,
    form: Form::Letter('o'),
    help: Some("The file that the image is written to"),
    ..IMAGE
};

const COMPILE: Subcommand = Subcommand {
    name: "compile",
    about: "Writes the image of a script, and prints its budget in steps",
    example: "Example: mailfile-tool compile main.sieve --global shared -o main.image",
    words: &[SCRIPT, OUTPUT, RULES, PERSONAL, GLOBAL],
    has_shared: false,
};

const DUMP: Subcommand = Subcommand {
    name: "dump",
    about: "Shows an image as text, and whether it may run",
    example: "Example: mailfile-tool dump main.image",
    words: &[IMAGE],
    has_shared: false,
};

pub const MESSAGE: Word = Word {
    name: names::MESSAGE,
    value: "MESSAGE",
    is_required: false,
    ..PLACE
};

pub const PLAN: Word = Word {
    name: names::PLAN,
    value: "FILE",
    help: Some("The plan; without it the only class is unfiled"),
    ..OPTION
};

pub const DAY: Word = Word {
    name: names::DAY,
    value: "YYYY-MM-DD",
    help: Some("The day of the capture, from which due dates are counted; today if none is given"),
    ..OPTION
};

pub const STEPS: Word = Word {
    name: names::STEPS,
    help: Some("Shows the steps of the script's image in place of its source"),
    ..FLAG
};

pub const JSON: Word = Word {
    name: names::JSON,
    help: Some("Writes the whole as one line of JSON"),
    ..FLAG
};

/// The image that is run in place of a script.
pub const RUN: Word = Word {
    name: names::RUN,
    value: "FILE",
    help: Some(
        "Runs this image in place of a script, and shows its steps; only a message is named",
    ),
    conflict: Some("rules"),
    ..OPTION
};

const WHY: Subcommand = Subcommand {
    name: "why",
    about: "Shows why a message is filed where it is: the commands that chose its classes, its fields, and the way there by the source",
    example: "Example: mailfile-tool why main.sieve mail.eml --plan plan.toml --day 2026-11-23",
    words: &[
        SCRIPT, MESSAGE, PLAN, DAY, STEPS, JSON, RUN, RULES, PERSONAL, GLOBAL,
    ],
    has_shared: false,
};

/// The domains of recipients.
pub const DOMAINS: Word = Word {
    name: names::DOMAINS,
    form: Form::Places,
    value: "DOMAIN",
    help: Some("A domain of their addresses, as records.example.org"),
    ..PLACE
};

const RECIPIENTS: Subcommand = Subcommand {
    name: "recipients",
    about: "Writes the officers of a folder of rules as a map of recipients for Postfix, so that it refuses mail to others at the door",
    example: "Example: mailfile-tool recipients --rules rules records.example.org",
    words: &[
        Word {
            is_required: true,
            help: Some("The folder of all rules: an officer is a folder with a script main.sieve"),
            ..RULES
        },
        DOMAINS,
    ],
    has_shared: false,
};

const SUBCOMMANDS: &[Subcommand] = &[FRAME, EXPLAIN, CHECK, COMPILE, DUMP, WHY, RECIPIENTS];

fn subcommands() -> &'static [Subcommand]
    ensures { (shared : List TheWord) → map (shape_of_table shared) result.now ≡ tools }
{
    SUBCOMMANDS
}

/// The whole command line, with all subcommands.
pub fn program(alloc: Global) -> Result<Program, AllocError>
    ensures { IfOk result (λ p. app_of_table p ≡ tool_app) }
{
    Ok(Program {
        name: "mailfile-tool",
        about: "Tools for mailfile: sessions without counting octets, texts for numbers, script checks, images as text, and why a message is filed",
        groups: vec![in alloc; subcommands()]?,
        shared: &[],
        hints: &[],
        strays: &[],
    })
}
