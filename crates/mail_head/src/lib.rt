//! The header of a message (RFC 5322, section 2.2): its fields, as slices of the octets that were handed in.
//!
//! Any octets are a message. Reading is lenient: a bare LF ends a line as CRLF does, blanks may stand before a field's
//! colon, and a line that is no field is passed over. Octets are never changed here: a folded body keeps its line ends,
//! and encoded words stay as they stand.
//!
//! `read_head` reads a whole message, `HeadReader` one that comes in pieces; both give the same fields. `lines` cuts a
//! header into logical lines, `fields` takes one apart, and `reading` finds one field after another. `parts` says what
//! a piece adds to the header of the pieces before it, and `buffer` keeps the header's octets. From these `pieces`
//! makes the header type of `owned`.
//!
//! In `specs/`, `Spans` defines the fields by the spans that a message is cut into, and `Lines` and `Fields` compute
//! them. `laws` has the law that ties the two.
#![tactic(auto)]

mod buffer;
mod fields;
mod laws;
mod lines;
mod owned;
mod parts;
mod pieces;
mod reading;

pub use buffer::{HeadFault, HeaderBuffer, MAX_OCTETS};
pub use fields::Field;
pub use laws::fields_are_decided;
pub use owned::PieceHead;
pub use pieces::HeadReader;
pub use reading::{FoundField, Head, first_field, read_head};
