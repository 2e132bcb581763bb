//! The names of words, by which their values are asked for. Two names may be one text where no subcommand has both.

// ---- scripts: of `check`, `compile` and `why`

/// The folder of the officer's own scripts.
pub const PERSONAL: &str = "personal";

/// The folder of the scripts of all officers.
pub const GLOBAL: &str = "global";

/// The folder of all rules; of `recipients` too.
pub const RULES: &str = "rules";

/// The script; not of `check`.
pub const SCRIPT: &str = "script";

// ---- `frame` and `explain`

/// The file of commands; of `frame`.
pub const COMMANDS: &str = "file";

/// The script that was refused; of `explain`.
pub const REFUSED: &str = "script";

/// All numbers are explained; of `explain`.
pub const NUMBERS: &str = "numbers";

/// The number that is explained; of `explain`.
pub const NUMBER: &str = "number";

// ---- `check`, `compile` and `dump`

/// The files that are judged; of `check`.
pub const FILES: &str = "files";

/// The plan that is in force; of `check`.
pub const PRESENT_PLAN: &str = "plan";

/// The image that is written; of `compile`.
pub const OUTPUT: &str = "image";

/// The image that is shown; of `dump`.
pub const IMAGE: &str = "image";

// ---- `why` and `recipients`

/// The message; of `why`.
pub const MESSAGE: &str = "message";

/// The plan by which it is filed; of `why`.
pub const PLAN: &str = "plan";

/// The day of its capture; of `why`.
pub const DAY: &str = "day";

/// The steps of the image are told; of `why`.
pub const STEPS: &str = "steps";

/// As JSON; of `why`.
pub const JSON: &str = "json";

/// The image that files it in place of a script; of `why`.
pub const RUN: &str = "image";

/// The domains of recipients; of `recipients`.
pub const DOMAINS: &str = "domains";
