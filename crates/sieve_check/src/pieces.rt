//! Arguments, grouped: each tag with the string that belongs to it, and the positional arguments.

ghost use Rattle.std.specs.Prelude.{◌≡◌, ◌∷◌, List, MatchOption};
ghost use Rattle.std.specs.Option.{option_map};
ghost use Rattle.sieve_syntax.specs.declared.tree.StringList.TheVariants.{One};
ghost use Rattle.sieve_syntax.specs.declared.tree.Argument.TheVariants as arguments_of;
ghost use Rattle.sieve_check.specs.Tables.{TagWord};
ghost use Rattle.sieve_check.specs.Views.{tag_view};
ghost use Rattle.sieve_check.specs.Pieces.{string_first, tag_pieces, pieces, tagged};

use crate::lookup::find_tag;
use crate::table::{Form, TagRow};
use sieve_syntax::{Argument, Arguments, StringList};

/// A tag or a positional argument.
#[derive(Clone, Copy)]
pub enum Piece<'a> {
    /// A tag with its row, if the table has one for it, and the comparator that it names.
    Tagged(Option<TagRow>, Option<&'a [u8]>),
    Positional(&'a Argument),
}

/// The pieces that arguments make, in order.
#[derive(Drop)]
pub struct Pieces<'a> {
    tags: &'a [TagRow],
    rest: &'a [Argument],
}

impl<'a> Pieces<'a> {
    ghost use Rattle.sieve_check.specs.PieceViews.{pieces_left, pieces_of};

    /// The pieces of the arguments of a command or test of this form.
    pub fn new(form: &'a Form, arguments: &'a Arguments) -> Pieces<'a>
        ensures { pieces_left result ≡ pieces_of form.now arguments.now }
    {
        Pieces {
            tags: form.tags,
            rest: arguments.as_slice(),
        }
    }
}

/// The string outside brackets that comes first, and the arguments after it.
fn split_string(arguments: &[Argument]) -> Option<(&[u8], &[Argument])>
    ensures { MatchOption result (string_first arguments.now ≡ None) (λ x. arguments.now ≡
        arguments_of.Strings (One x.0.now) ∷ x.1.now) }
{
    match arguments.split_first() {
        Some((Argument::Strings(StringList::One(text)), following)) => Some((
            text.as_slice(),
            following,
        )),
        _ => None,
    }
}

/// The comparator that a tag of this row names, and the arguments after both.
fn split_comparator(row: Option<TagRow>, following: &[Argument]) -> (Option<&[u8]>, &[Argument])
    ensures { (tags : List TagWord) → tag_pieces (option_map tag_view row)
        (string_first following.now) (pieces tags following.now) ≡ tagged (option_map tag_view row)
        (option_map (λ t. t.now) result.0) ∷ pieces tags result.1.now }
{
    match row {
        Some(row) if row.names_comparator => match split_string(following) {
            Some((text, rest)) => (Some(text), rest),
            None => (None, following),
        },
        _ => (None, following),
    }
}

impl<'a> Iterator for Pieces<'a> {
    type Item = Piece<'a>;

    ghost use Rattle.std.specs.Iterator.{YieldsFirstBy, item_count};
    ghost use Rattle.sieve_check.specs.PieceViews.{piece_view, pieces_left};

    ghost next_gives = { YieldsFirstBy piece_view pieces_left };

    ghost remaining = { item_count pieces_left };

    fn next(&mut self) -> Option<Piece<'a>> {
        let (first, following) = self.rest.split_first()?;
        self.rest = following;
        let Argument::Tag(name) = first else {
            return Some(Piece::Positional(first));
        };
        let row = find_tag(name.as_slice(), self.tags);
        let (comparator, rest) = split_comparator(row, following);
        self.rest = rest;
        Some(Piece::Tagged(row, comparator))
    }
}
