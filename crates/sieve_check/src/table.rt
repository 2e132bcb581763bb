//! What may occur in a script, as data: the capabilities, and a row for each command and each test.
//!
//! The definitions have the same tables in `specs/Tables.antt`. The contracts of the functions at the end of this file
//! say that both agree.

ghost use Rattle.std.specs.Prelude.{◌≡◌, map};
ghost use Rattle.sieve_check.specs.Rules.{goes_on, is_branch, is_require, same_kind, same_tests, takes};
ghost use Rattle.sieve_check.specs.Tables.{capability_table, comparator_table, command_table, test_table};
ghost use Rattle.sieve_check.specs.Views.{capability_view, command_view, test_view};

use sieve_syntax::{Argument, StringList};

/// What a script may name in a `require` (RFC 5228, section 3.2).
#[derive(Clone, Copy)]
pub enum Capability {
    Fileinto,
    Copy,
    Include,
    OctetComparator,
    CasemapComparator,
}

/// A capability and the exact octets that name it.
#[derive(Clone, Copy)]
pub struct CapabilityRow {
    pub text: &'static [u8],
    pub capability: Capability,
}

/// Kinds of tags. At most one tag of each kind may follow a name.
#[derive(Clone, Copy, PartialEq, Eq)]
pub enum TagKind {
    Copy,
    Comparator,
    MatchType,
    SizeLimit,
    Location,
    Once,
    Optional,
}

impl TagKind {
    /// Whether both are one kind.
    pub fn is_same(self, other: TagKind) -> bool
        ensures { result ≡ same_kind self other }
    {
        self == other
    }
}

/// A tag that may follow a name.
#[derive(Clone, Copy)]
pub struct TagRow {
    /// Without the colon, in lower case.
    pub name: &'static [u8],
    pub kind: TagKind,
    pub needs: Option<Capability>,
    /// Whether the string directly after the tag belongs to it and names a comparator.
    pub names_comparator: bool,
}

/// The kind of a positional argument.
#[derive(Clone, Copy)]
pub enum Positional {
    /// A string outside brackets.
    OneString,
    /// A string or a list in brackets.
    StringList,
    OneNumber,
}

impl Positional {
    /// Whether an argument is of the kind that belongs here.
    pub fn takes(self, argument: &Argument) -> bool
        ensures { result ≡ takes self argument.now }
    {
        match (self, argument) {
            (Positional::OneString, Argument::Strings(StringList::One(_))) => true,
            (Positional::StringList, Argument::Strings(_)) => true,
            (Positional::OneNumber, Argument::Number(_)) => true,
            _ => false,
        }
    }
}

/// Which tests follow the arguments.
#[derive(Clone, Copy, PartialEq, Eq)]
pub enum TestsForm {
    NoTest,
    /// One test outside parentheses.
    OneTest,
    /// Tests in parentheses.
    TestList,
}

impl TestsForm {
    /// Whether both are one form.
    pub fn is_same(self, other: TestsForm) -> bool
        ensures { result ≡ same_tests self other }
    {
        self == other
    }
}

/// What follows the name of a command or of a test.
#[derive(Clone, Copy)]
pub struct Form {
    pub needs: Option<Capability>,
    pub tags: &'static [TagRow],
    /// A kind of tags of which one is required.
    pub needs_tag: Option<TagKind>,
    pub positional: &'static [Positional],
    pub tests: TestsForm,
}

/// What the rules on the order of commands need to know of a command.
#[derive(Clone, Copy)]
pub enum Role {
    /// Comes before all other commands.
    Require,
    /// Begins a chain of branches.
    If,
    /// Comes directly after an `if` or `elsif`, and another branch may follow.
    Elsif,
    /// Comes directly after an `if` or `elsif`, and ends the chain.
    Else,
    /// May come anywhere.
    Other,
}

impl Role {
    /// Whether the command is a `require`.
    pub fn is_require(self) -> bool
        ensures { result ≡ is_require self }
    {
        matches!(self, Role::Require)
    }

    /// Whether another branch may follow the command.
    pub fn is_branch(self) -> bool
        ensures { result ≡ is_branch self }
    {
        matches!(self, Role::If | Role::Elsif)
    }

    /// Whether the command continues a chain of branches.
    pub fn goes_on(self) -> bool
        ensures { result ≡ goes_on self }
    {
        matches!(self, Role::Elsif | Role::Else)
    }
}

/// A command.
#[derive(Clone, Copy)]
pub struct CommandRow {
    /// In lower case.
    pub name: &'static [u8],
    pub role: Role,
    pub form: Form,
    /// Whether it ends with a block; otherwise it ends with a semicolon.
    pub has_block: bool,
}

/// A test.
#[derive(Clone, Copy)]
pub struct TestRow {
    /// In lower case.
    pub name: &'static [u8],
    pub form: Form,
}

static CAPABILITIES: [CapabilityRow; 5] = [
    CapabilityRow {
        text: b"fileinto",
        capability: Capability::Fileinto,
    },
    CapabilityRow {
        text: b"copy",
        capability: Capability::Copy,
    },
    CapabilityRow {
        text: b"include",
        capability: Capability::Include,
    },
    CapabilityRow {
        text: b"comparator-i;octet",
        capability: Capability::OctetComparator,
    },
    CapabilityRow {
        text: b"comparator-i;ascii-casemap",
        capability: Capability::CasemapComparator,
    },
];

static COMMANDS: [CommandRow; 10] = [
    CommandRow {
        name: b"require",
        role: Role::Require,
        form: Form {
            needs: None,
            tags: &[],
            needs_tag: None,
            positional: &[Positional::StringList],
            tests: TestsForm::NoTest,
        },
        has_block: false,
    },
    CommandRow {
        name: b"if",
        role: Role::If,
        form: Form {
            needs: None,
            tags: &[],
            needs_tag: None,
            positional: &[],
            tests: TestsForm::OneTest,
        },
        has_block: true,
    },
    CommandRow {
        name: b"elsif",
        role: Role::Elsif,
        form: Form {
            needs: None,
            tags: &[],
            needs_tag: None,
            positional: &[],
            tests: TestsForm::OneTest,
        },
        has_block: true,
    },
    CommandRow {
        name: b"else",
        role: Role::Else,
        form: Form {
            needs: None,
            tags: &[],
            needs_tag: None,
            positional: &[],
            tests: TestsForm::NoTest,
        },
        has_block: true,
    },
    CommandRow {
        name: b"stop",
        role: Role::Other,
        form: Form {
            needs: None,
            tags: &[],
            needs_tag: None,
            positional: &[],
            tests: TestsForm::NoTest,
        },
        has_block: false,
    },
    CommandRow {
        name: b"keep",
        role: Role::Other,
        form: Form {
            needs: None,
            tags: &[],
            needs_tag: None,
            positional: &[],
            tests: TestsForm::NoTest,
        },
        has_block: false,
    },
    CommandRow {
        name: b"discard",
        role: Role::Other,
        form: Form {
            needs: None,
            tags: &[],
            needs_tag: None,
            positional: &[],
            tests: TestsForm::NoTest,
        },
        has_block: false,
    },
    CommandRow {
        name: b"return",
        role: Role::Other,
        form: Form {
            needs: Some(Capability::Include),
            tags: &[],
            needs_tag: None,
            positional: &[],
            tests: TestsForm::NoTest,
        },
        has_block: false,
    },
    CommandRow {
        name: b"fileinto",
        role: Role::Other,
        form: Form {
            needs: Some(Capability::Fileinto),
            tags: &[TagRow {
                name: b"copy",
                kind: TagKind::Copy,
                needs: Some(Capability::Copy),
                names_comparator: false,
            }],
            needs_tag: None,
            positional: &[Positional::OneString],
            tests: TestsForm::NoTest,
        },
        has_block: false,
    },
    CommandRow {
        name: b"include",
        role: Role::Other,
        form: Form {
            needs: Some(Capability::Include),
            tags: &[
                TagRow {
                    name: b"personal",
                    kind: TagKind::Location,
                    needs: None,
                    names_comparator: false,
                },
                TagRow {
                    name: b"global",
                    kind: TagKind::Location,
                    needs: None,
                    names_comparator: false,
                },
                TagRow {
                    name: b"once",
                    kind: TagKind::Once,
                    needs: None,
                    names_comparator: false,
                },
                TagRow {
                    name: b"optional",
                    kind: TagKind::Optional,
                    needs: None,
                    names_comparator: false,
                },
            ],
            needs_tag: None,
            positional: &[Positional::OneString],
            tests: TestsForm::NoTest,
        },
        has_block: false,
    },
];

static TESTS: [TestRow; 8] = [
    TestRow {
        name: b"header",
        form: Form {
            needs: None,
            tags: &[
                TagRow {
                    name: b"comparator",
                    kind: TagKind::Comparator,
                    needs: None,
                    names_comparator: true,
                },
                TagRow {
                    name: b"is",
                    kind: TagKind::MatchType,
                    needs: None,
                    names_comparator: false,
                },
                TagRow {
                    name: b"contains",
                    kind: TagKind::MatchType,
                    needs: None,
                    names_comparator: false,
                },
                TagRow {
                    name: b"matches",
                    kind: TagKind::MatchType,
                    needs: None,
                    names_comparator: false,
                },
            ],
            needs_tag: None,
            positional: &[Positional::StringList, Positional::StringList],
            tests: TestsForm::NoTest,
        },
    },
    TestRow {
        name: b"exists",
        form: Form {
            needs: None,
            tags: &[],
            needs_tag: None,
            positional: &[Positional::StringList],
            tests: TestsForm::NoTest,
        },
    },
    TestRow {
        name: b"size",
        form: Form {
            needs: None,
            tags: &[
                TagRow {
                    name: b"over",
                    kind: TagKind::SizeLimit,
                    needs: None,
                    names_comparator: false,
                },
                TagRow {
                    name: b"under",
                    kind: TagKind::SizeLimit,
                    needs: None,
                    names_comparator: false,
                },
            ],
            needs_tag: Some(TagKind::SizeLimit),
            positional: &[Positional::OneNumber],
            tests: TestsForm::NoTest,
        },
    },
    TestRow {
        name: b"not",
        form: Form {
            needs: None,
            tags: &[],
            needs_tag: None,
            positional: &[],
            tests: TestsForm::OneTest,
        },
    },
    TestRow {
        name: b"allof",
        form: Form {
            needs: None,
            tags: &[],
            needs_tag: None,
            positional: &[],
            tests: TestsForm::TestList,
        },
    },
    TestRow {
        name: b"anyof",
        form: Form {
            needs: None,
            tags: &[],
            needs_tag: None,
            positional: &[],
            tests: TestsForm::TestList,
        },
    },
    TestRow {
        name: b"true",
        form: Form {
            needs: None,
            tags: &[],
            needs_tag: None,
            positional: &[],
            tests: TestsForm::NoTest,
        },
    },
    TestRow {
        name: b"false",
        form: Form {
            needs: None,
            tags: &[],
            needs_tag: None,
            positional: &[],
            tests: TestsForm::NoTest,
        },
    },
];

/// The capabilities.
pub fn capabilities() -> &'static [CapabilityRow]
    ensures { map capability_view result.now ≡ capability_table }
{
    &CAPABILITIES
}

static COMPARATORS: [&[u8]; 2] = [b"i;octet", b"i;ascii-casemap"];

/// The comparators, as exact octets (RFC 5228, section 2.7.3).
pub fn comparators() -> &'static [&'static [u8]]
    ensures { map (λ t. t.now) result.now ≡ comparator_table }
{
    &COMPARATORS
}

/// The commands.
pub fn commands() -> &'static [CommandRow]
    ensures { map command_view result.now ≡ command_table }
{
    &COMMANDS
}

/// The tests.
pub fn tests() -> &'static [TestRow]
    ensures { map test_view result.now ≡ test_table }
{
    &TESTS
}
