//! Header fields as people read them: for showing, and for searches by people. Rules read fields by other crates, in
//! fewer charsets and more strictly.
//!
//! `unfolding` reads a folded body as one line (RFC 5322, section 2.2.3). `words` takes an encoded word apart (RFC 2047,
//! section 2), wherever it stands, and `decoding` decodes it, by `quoted` where its encoding is Q. `showing` puts the
//! text together. `fields` shows the fields that a list of messages has. `folding` takes case off texts, `comparing`
//! makes them comparable, without case and with any white space as one space, and `question` answers whether a message has
//! given texts in its fields. `undecoded` names the words that rules do not decode.
#![tactic(auto)]

mod comparing;
mod decoding;
mod fields;
mod folding;
mod groups;
mod question;
mod quoted;
mod showing;
mod undecoded;
mod unfolding;
mod words;

pub use fields::{date, sender, subject};
pub use folding::fold;
pub use groups::FieldGroup;
pub use question::{FieldQuestion, FieldQuestionFault, Found};
pub use showing::{DisplayText, display};
pub use undecoded::{UndecodedWord, undecoded_words};
