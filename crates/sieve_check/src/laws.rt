//! Laws on scripts without refusal, for their readers. The functions do nothing: their contracts are the laws.

ghost use Rattle.sieve_check.specs.Shapes.{ShapeLaw, NameLaw, IfLaw, FileintoLaw, HeaderLaw, SizeLaw};

/// Each command and each test of a script without refusal has the shape of its row in the tables.
pub fn shape_law()
    ensures { ShapeLaw }
{}

/// Names that are equal except for ASCII case have the same row.
pub fn name_law()
    ensures { NameLaw }
{}

/// An `if` of that shape has no argument, one test outside parentheses, and a block (RFC 5228, section 3.1).
pub fn if_law()
    ensures { IfLaw }
{}

/// A `fileinto` of that shape has one string outside brackets after its tags, no test, and no block (RFC 5228, section
/// 4.1).
pub fn fileinto_law()
    ensures { FileintoLaw }
{}

/// A `header` of that shape has two strings or lists of strings after its tags, and no test (RFC 5228, section 5.7).
pub fn header_law()
    ensures { HeaderLaw }
{}

/// A `size` of that shape has `:over` or `:under`, one number, and no test (RFC 5228, section 5.9).
pub fn size_law()
    ensures { SizeLaw }
{}
