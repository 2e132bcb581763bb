//! Texts for the users of Mailfile: one for each number of a refusal or fault, places in a text by line and column, octets
//! in quotation marks, texts for a terminal or a log, and commands as a person types them.
#![tactic(auto)]

mod forms;
mod framing;
mod numbers;
mod places;
mod quoting;
mod shown;

pub use forms::{LineFault, Payload, Slot, line_fault, slots};
pub use framing::{Framed, LinePart, framed_line, parts, path_of};
pub use numbers::{fault_text, refusal_text};
pub use places::{Place, line_at, place_of};
pub use quoting::{escaped, named, quoted};
pub use shown::Shown;
