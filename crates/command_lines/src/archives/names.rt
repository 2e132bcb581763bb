//! The names of words, by which their values are asked for. Two names may be one text where no subcommand has both.

// ---- a store

/// The file or the folder of the store; of each subcommand.
pub const STORE: &str = "store";

/// The plan of a new store; of `create`.
pub const PLAN_FILE: &str = "plan";

/// The store that becomes the first volume; of `create`.
pub const ADOPT: &str = "adopt";

/// The size of volumes; of `create`.
pub const ROLL: &str = "roll";

/// The plan that takes the place of the old one; of `plan`.
pub const NEW_PLAN: &str = "set";

/// The file of a copy; of `copy`.
pub const NEW: &str = "new";

/// The mark that is looked for; of `check`.
pub const HEAD: &str = "head";

/// The titles that classes get; of `titles`.
pub const NEW_TITLES: &str = "set";

// ---- captures

/// The folder of rules; of `deliver`, `intake`, `import`, `check` and `why`.
pub const RULES: &str = "rules";

/// The officer whose rules they are; of the same.
pub const OFFICER: &str = "officer";

/// Mail goes to `unfiled` where the rules are at fault; of `deliver`, `intake` and `import`.
pub const UNFILED_ON_FAULT: &str = "unfiled-on-fault";

/// The moment of a capture; of `deliver` and `intake`.
pub const AT: &str = "at";

/// How long the work on a message may take; of `deliver`, `intake` and `import`.
pub const LIMIT: &str = "limit";

/// What is no message is captured too; of `deliver`.
pub const AS_IS: &str = "as-is";

/// Nothing is told of what is captured; of `intake` and `import`.
pub const QUIET: &str = "quiet";

/// Lines begin with the time of day; of `intake`.
pub const TIMES: &str = "times";

/// The Maildir that is read; of `intake`.
pub const MAILDIR: &str = "maildir";

/// What gives the moments of captures; of `import`.
pub const DATED: &str = "dated";

/// Messages are captured again; of `import`.
pub const AGAIN: &str = "again";

/// Messages that are passed over are told; of `import`.
pub const VERBOSE: &str = "verbose";

/// What is taken in; of `import`.
pub const SOURCES: &str = "sources";

// ---- records

/// The numbers of records; of each subcommand that takes some.
pub const NUMBERS: &str = "chosen";

/// The number of the one record; of `show` and `why`.
pub const NUMBER: &str = "number";

/// The record from which on others are looked at; of `list` and `export`.
pub const FROM: &str = "from";

// ---- conditions: of `list`, `export`, `hold`, `release`, `refile` and `report`

/// The class in or below which they are.
pub const CLASS: &str = "class";

/// The first day of capture.
pub const SINCE: &str = "since";

/// The last day of capture.
pub const UNTIL: &str = "until";

/// The day by which records are due.
pub const DUE: &str = "due";

/// Kept by a hold.
pub const HELD: &str = "held";

/// Not destroyed.
pub const LIVE: &str = "live";

/// Destroyed.
pub const DESTROYED: &str = "destroyed";

/// A test that the message meets.
pub const WHERE: &str = "where";

/// A text of a sender.
pub const SENDER: &str = "sender";

/// A text of a recipient.
pub const RECIPIENT: &str = "recipient";

/// A text of the subject.
pub const SUBJECT: &str = "subject";

// ---- lists and single records

/// The sender, the subject and the date are listed too; of `list`.
pub const HEADERS: &str = "headers";

/// Numbers alone are listed; of `list`.
pub const ONLY_NUMBERS: &str = "numbers";

/// How many there are; of `list`.
pub const COUNT: &str = "count";

/// As CSV; of `list`.
pub const CSV: &str = "csv";

/// As JSON; of `list`, `holds`, `titles` and `history`.
pub const JSON: &str = "json";

/// The records whose messages stand twice; of `list`.
pub const TWICE: &str = "twice";

/// The fields of the header alone; of `show`.
pub const FIELDS: &str = "fields";

/// The order of the index; of `export`.
pub const SORT: &str = "sort";

/// The folder of the export; of `export`.
pub const FOLDER: &str = "folder";

/// The folder of the rules as they were; of `why`.
pub const FORMERLY: &str = "formerly";

// ---- changes

/// Nobody is asked before; of `plan`, `release`, `refile` and `dispose`.
pub const YES: &str = "yes";

/// The day by which records are due; of `dispose` and `report`.
pub const DAY: &str = "day";

/// Messages that are not the ones that were captured count too; of `copy` and `dispose`.
pub const DAMAGED: &str = "damaged";

/// The name of the hold; of `hold` and `release`.
pub const NAME: &str = "name";

/// The whole hold ends; of `release`.
pub const ALL: &str = "all";

/// The class that records get; of `refile`.
pub const TO: &str = "to";

/// The file of the numbers that were approved; of `dispose`.
pub const APPROVED: &str = "approved";

// ---- histories

/// Who makes a change; of each subcommand that makes one. In `history` also whose events are printed.
pub const BY: &str = "by";

/// For what reason; of the same.
pub const REASON: &str = "reason";

/// The history begins; of `history`.
pub const BEGIN: &str = "begin";

/// Reasons are required from now on; of `history`.
pub const REQUIRE_REASON: &str = "require-reason";

/// Reasons are required no more; of `history`.
pub const WAIVE_REASON: &str = "waive-reason";

/// What was found is accepted; of `history`.
pub const ACCEPT_FOUND: &str = "accept-found";

/// The first day of events; of `history`.
pub const EVENTS_SINCE: &str = "since";

/// The kind of events; of `history`.
pub const DEEDS: &str = "deeds";
