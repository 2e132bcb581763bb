//! A law of the definitions, as the contract of a function that does nothing.

ghost use Rattle.mail_head.specs.Spans.{FieldsLaw};

/// A message has exactly one list of fields, and that is the one computed. Its lines, joined, are the message; the
/// header consists of the lines before the first one without octets. A logical line is a line joined with the lines
/// after it that begin with a blank. It is a field where it is a name, blanks, a colon, the body and a line end, and is
/// otherwise passed over.
pub fn fields_are_decided()
    ensures { FieldsLaw }
{}
