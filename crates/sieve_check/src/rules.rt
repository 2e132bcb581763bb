//! The rules on what follows the name of a command or a test, one function each.

ghost use Rattle.std.specs.Prelude.{◌≡◌, ◌||◌, false, map};
ghost use Rattle.std.specs.List.{list_any};
ghost use Rattle.sieve_check.specs.Context.{has_of};
ghost use Rattle.sieve_check.specs.Views.{form_view};
ghost use Rattle.sieve_check.specs.PieceViews.{piece_view, pieces_of};
ghost use Rattle.sieve_check.specs.Pieces.{is_tagged};
ghost use Rattle.sieve_check.specs.Rules.{lacks, piece_lacks, is_unknown_tag, has_kind, stands_twice, has_tag_twice, fits, lacks_string, lacks_tag, has_wrong_arguments, is_unknown_comparator, tests_there, has_wrong_tests};
ghost use Rattle.sieve_check.specs.Lookup.{same_text};
ghost use Rattle.sieve_check.specs.Tables.{comparator_table};
ghost use Rattle.sieve_syntax.specs.View.{inner_of};

use crate::capability_set::CapabilitySet;
use crate::findings::Findings;
use crate::lookup::is_same_text;
use crate::pieces::{Piece, Pieces};
use crate::table::{Capability, Form, TagKind, TestsForm, comparators};
use sieve_syntax::{Arguments, Tests};

/// Whether a capability is needed that is not named.
fn lacks(named: CapabilitySet, needs: Option<Capability>) -> bool
    ensures { result ≡ lacks (has_of named) needs }
{
    match needs {
        Some(capability) => !named.has(capability),
        None => false,
    }
}

impl<'a> Piece<'a> {
    /// Whether it is a tag whose capability is not named.
    pub fn lacks_capability(self, named: CapabilitySet) -> bool
        ensures { result ≡ piece_lacks (has_of named) (piece_view self.entry) }
    {
        match self {
            Piece::Tagged(Some(row), _) => lacks(named, row.needs),
            _ => false,
        }
    }

    /// Whether it is a tag.
    pub fn is_tag(self) -> bool
        ensures { result ≡ is_tagged (piece_view self.entry) }
    {
        matches!(self, Piece::Tagged(_, _))
    }

    /// Whether it is a tag that the table does not list for this name.
    pub fn is_unknown_tag(self) -> bool
        ensures { result ≡ is_unknown_tag (piece_view self.entry) }
    {
        matches!(self, Piece::Tagged(None, _))
    }

    /// Whether it is a tag of a kind.
    fn has_kind(self, kind: TagKind) -> bool
        ensures { result ≡ has_kind kind (piece_view self.entry) }
    {
        match self {
            Piece::Tagged(Some(row), _) => kind.is_same(row.kind),
            _ => false,
        }
    }

    /// Whether it is a tag that lacks its string.
    pub fn lacks_string(self) -> bool
        ensures { result ≡ lacks_string (piece_view self.entry) }
    {
        match self {
            Piece::Tagged(Some(row), None) => row.names_comparator,
            _ => false,
        }
    }

    /// Whether it is a tag that names an unknown comparator.
    pub fn is_unknown_comparator(self) -> bool
        ensures { result ≡ is_unknown_comparator (piece_view self.entry) }
    {
        match self {
            Piece::Tagged(_, Some(text)) => !is_comparator(text),
            _ => false,
        }
    }
}

/// Whether these octets name a comparator.
fn is_comparator(text: &[u8]) -> bool
    ensures { result ≡ list_any (λ t. same_text text.now t) comparator_table }
{
    for name in comparators() {
        if is_same_text(text, name) {
            return true;
        }
    }
    false
}

/// Whether two tags are of this kind.
fn has_kind_twice(kind: TagKind, form: &Form, arguments: &Arguments) -> bool
    ensures { result ≡ stands_twice kind (pieces_of form.now arguments.now) }
{
    Pieces::new(form, arguments)
        .skip_while(|piece| !piece.has_kind(kind))
        .skip(1)
        .any(|piece| piece.has_kind(kind))
}

/// Whether two tags are of one kind.
fn has_tag_twice(form: &Form, arguments: &Arguments) -> bool
    ensures { result ≡ has_tag_twice (form_view form.now) (pieces_of form.now arguments.now) }
{
    for row in form.tags {
        if has_kind_twice(row.kind, form, arguments) {
            return true;
        }
    }
    false
}

/// Whether the positional arguments are those of the form.
fn fits(form: &Form, arguments: &Arguments) -> bool
    ensures { result ≡ fits (form_view form.now) (pieces_of form.now arguments.now) }
{
    let mut expected = form.positional;
    for piece in Pieces::new(form, arguments) {
        if let Piece::Positional(argument) = piece {
            match expected.split_first() {
                Some((place, following)) if place.takes(argument) => expected = following,
                _ => return false,
            }
        }
    }
    expected.is_empty()
}

/// Whether a tag of this kind is there.
fn has_tag(kind: TagKind, form: &Form, arguments: &Arguments) -> bool
    ensures { result ≡ list_any (has_kind kind) (pieces_of form.now arguments.now) }
{
    Pieces::new(form, arguments).any(|piece| piece.has_kind(kind))
}

/// Whether a required tag is missing.
fn lacks_tag(form: &Form, arguments: &Arguments) -> bool
    ensures { result ≡ lacks_tag (form_view form.now).needs_tag (pieces_of form.now arguments.now) }
{
    match form.needs_tag {
        Some(kind) => !has_tag(kind, form, arguments),
        None => false,
    }
}

impl Findings {
    /// 34: whether the command or one of its tags needs a capability that is not named.
    pub fn lacks_capability(self, named: CapabilitySet, form: &Form) -> bool
        ensures { result
            ≡ (lacks (has_of named) (form_view form.now).needs || self.lacks_capability) }
    {
        lacks(named, form.needs) || self.lacks_capability
    }

    /// 35: whether a tag is not one of the form's, or comes after a positional argument.
    pub fn has_wrong_tag(self) -> bool
        ensures { result ≡ (self.unknown_tag || self.late_tag) }
    {
        self.unknown_tag || self.late_tag
    }

    /// 36: whether two tags are of one kind. The tags are compared only where there are two.
    pub fn has_tag_twice(self, form: &Form, arguments: &Arguments) -> bool
        requires { self.two_tags ≡ false
            → has_tag_twice (form_view form.now) (pieces_of form.now arguments.now)
            ≡ false }
        ensures { result ≡ has_tag_twice (form_view form.now) (pieces_of form.now arguments.now) }
    {
        self.two_tags && has_tag_twice(form, arguments)
    }

    /// 37: whether the positional arguments are not the form's, a tag lacks its string, or a required tag is missing.
    pub fn has_wrong_arguments(self, form: &Form, arguments: &Arguments) -> bool
        requires { self.lacks_string ≡ list_any lacks_string (pieces_of form.now arguments.now) }
        ensures { result ≡ has_wrong_arguments (form_view form.now)
            (pieces_of form.now arguments.now) }
    {
        !fits(form, arguments) || self.lacks_string || lacks_tag(form, arguments)
    }
}

/// The form of the tests that are there.
fn tests_there(tests: &Tests) -> TestsForm
    ensures { result ≡ tests_there (inner_of tests.now) }
{
    match tests {
        Tests::None => TestsForm::NoTest,
        Tests::One(_) => TestsForm::OneTest,
        Tests::Listed(_) => TestsForm::TestList,
    }
}

/// 41: whether the tests are not those of the form.
pub fn has_wrong_tests(form: &Form, tests: &Tests) -> bool
    ensures { result ≡ has_wrong_tests (form_view form.now).tests (inner_of tests.now) }
{
    !form.tests.is_same(tests_there(tests))
}
