//! All that is wrong with a script, and where.
//!
//! `judge` answers the verdict that a session gives, and beside it what is found once each fault before is repaired.
//!
//! - `judgement`: the verdict on a text;
//! - `findings`: what is wrong with a script; `search`: how it is looked for;
//! - `repaired`: a script as far as it is repaired, with the places of the script as it was;
//! - `spots`: where a script is refused, what about, and how it is repaired there;
//! - `octets`, `ways` and `mends`: repairs of what is no token, of what breaks the grammar, and of what breaks a rule;
//! - `subjects`: what a refusal is about; `rules` and `usage`: what a broken rule is about;
//! - `lone_test`: what is wrong with a test that stands by itself;
//! - `wording`: what a finding says;
//! - `words`: the words that a script may use, and the one that was meant, perhaps;
//! - `fronts`, `names` and `circles`: the commands of a script, what they name, and includes that come back.
#![tactic(auto)]

mod circles;
mod findings;
mod fronts;
mod halving;
mod judgement;
mod lone_test;
mod mends;
mod names;
mod octets;
mod repaired;
mod rules;
mod search;
mod spots;
mod subjects;
mod usage;
mod ways;
mod wording;
mod words;

pub use circles::{Circle, Edge, Includes, Link, includes_of};
pub use findings::{Finding, Report, judge};
pub use fronts::{Front, fronts_of};
pub use halving::Search;
pub use judgement::{Judgement, judgement_of};
pub use lone_test::finding_in_test;
pub use names::{Named, impossible_fields, name_in};
pub use subjects::Subject;
pub use wording::push_words;
pub use words::Guess;
