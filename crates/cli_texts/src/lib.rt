//! Texts for those who run an archive: records as lines, as rows of CSV and as JSON; what the headers of their messages say;
//! holds as cases; certificates; sums; and the text of a plan.
#![tactic(auto)]

mod cases;
mod certificates;
mod escapes;
mod events;
mod headers;
mod history_lines;
mod json;
mod numbers;
mod plans;
mod records;
mod rows;
mod titles;

pub use cases::{CaseBeginning, ListedCase, case_line, case_object};
pub use certificates::{
    CapturedMessage, Certificate, certificate_line, moment_text, sum_of, sum_text,
};
pub use events::{Field, ListedEvent, Named, ToldCertificate, event_object, told_certificate};
pub use headers::{Headers, ListedHeaders, headers_of, undecoded_lines};
pub use history_lines::{NumberPlaces, history_line};
pub use numbers::{number_text, put_number};
pub use plans::{due_by, plan_of_text, plan_text};
pub use records::{Row, captured_line, captured_words, json_object, listed_line};
pub use rows::{
    Exported, Kept, LIST_HEADER, LIST_HEADER_WITH_TEXTS, MANIFEST_HEADER, csv_row, listed_row,
    manifest_row,
};
pub use titles::{ClassTitle, ListedTitle, title_line, title_object};
