//! What the tags of arguments show, gathered in one pass over them.

ghost use Rattle.std.specs.Prelude.{◌≡◌, false, ◌||◌};
ghost use Rattle.std.specs.List.{list_any};
ghost use Rattle.sieve_check.specs.Context.{has_of};
ghost use Rattle.sieve_check.specs.Findings.{no_findings, findings_with, findings_in};
ghost use Rattle.sieve_check.specs.PieceViews.{piece_view, pieces_of};
ghost use Rattle.sieve_check.specs.Rules.{piece_lacks, has_wrong_tag, has_tag_twice, lacks_string, is_unknown_comparator};
ghost use Rattle.sieve_check.specs.Views.{form_view};

use crate::capability_set::CapabilitySet;
use crate::pieces::{Piece, Pieces};
use crate::table::Form;
use sieve_syntax::Arguments;

/// What the pieces of arguments show.
#[derive(Clone, Copy)]
pub struct Findings {
    /// A tag needs a capability that is not named.
    pub lacks_capability: bool,
    /// A tag is not one of the form's.
    pub unknown_tag: bool,
    /// A tag lacks its string.
    pub lacks_string: bool,
    /// A tag names an unknown comparator.
    pub unknown_comparator: bool,
    /// There is a positional argument.
    pub positional: bool,
    /// A tag comes after a positional argument.
    pub late_tag: bool,
    /// There is a tag.
    pub tag: bool,
    /// There are at least two tags.
    pub two_tags: bool,
}

impl Findings {
    fn nothing() -> Findings
        ensures { result ≡ no_findings }
    {
        Findings {
            lacks_capability: false,
            unknown_tag: false,
            lacks_string: false,
            unknown_comparator: false,
            positional: false,
            late_tag: false,
            tag: false,
            two_tags: false,
        }
    }

    /// These, with what another piece shows.
    fn with(self, named: CapabilitySet, piece: Piece<'_>) -> Findings
        ensures { result ≡ findings_with (has_of named) self (piece_view piece.entry) }
    {
        let is_tag = piece.is_tag();
        Findings {
            lacks_capability: self.lacks_capability || piece.lacks_capability(named),
            unknown_tag: self.unknown_tag || piece.is_unknown_tag(),
            lacks_string: self.lacks_string || piece.lacks_string(),
            unknown_comparator: self.unknown_comparator || piece.is_unknown_comparator(),
            positional: self.positional || !is_tag,
            late_tag: self.late_tag || (self.positional && is_tag),
            tag: self.tag || is_tag,
            two_tags: self.two_tags || (self.tag && is_tag),
        }
    }
}

/// What all pieces show.
fn go_over(named: CapabilitySet, form: &Form, arguments: &Arguments) -> Findings
    ensures { result ≡ findings_in (has_of named) no_findings (pieces_of form.now arguments.now) }
{
    let mut found = Findings::nothing();
    for piece in Pieces::new(form, arguments) {
        found = found.with(named, piece);
    }
    found
}

/// What the pieces of arguments show after a name of this form, given the named capabilities. Fewer than two tags are
/// never two of one kind.
pub fn gather(named: CapabilitySet, form: &Form, arguments: &Arguments) -> Findings
    ensures capability { result.lacks_capability ≡
        list_any (piece_lacks (has_of named)) (pieces_of form.now arguments.now) }
    ensures tag { (result.unknown_tag || result.late_tag) ≡
        has_wrong_tag (pieces_of form.now arguments.now) }
    ensures twice { result.two_tags ≡ false
        → has_tag_twice (form_view form.now) (pieces_of form.now arguments.now)
        ≡ false }
    ensures string { result.lacks_string
        ≡ list_any lacks_string (pieces_of form.now arguments.now) }
    ensures comparator { result.unknown_comparator ≡
        list_any is_unknown_comparator (pieces_of form.now arguments.now) }
{
    go_over(named, form, arguments)
}
