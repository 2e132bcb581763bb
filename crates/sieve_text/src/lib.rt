//! The text of Sieve scripts (RFC 5228): from octets to tokens, and from tokens to the tree.
//!
//! In `specs/`, `Octets`, `Gaps` and `Strings` define the parts of tokens. `Tokens` defines the tokens of a script, or
//! its refusal, in the order of reading. `TokenGrammar` defines the tokens of RFC 5228, section 8.1, independently of
//! that order, each the longest that fits. `FaultGrammar` defines what is found where a script has no token. By the
//! laws `cut` and `refused_place`, both pairs of definitions agree.
//!
//! `Grammar` defines the trees of a script and what an answer means for it. `Reading` is the grammar read from left to
//! right; the parser's functions are proved against it first. `Questions` defines which texts are exactly one test.
#![tactic(auto)]

mod fault;
mod laws;
mod lexeme;
mod parser;
mod scanner;

pub use fault::{ScanFault, ScanRefusal, TextFault, TextRefusal};
pub use laws::{cut, one_scan, one_verdict, refused_place, some_verdict};
pub use parser::{one_tree, parse, parse_test};
pub use scanner::{MAX_OCTETS, scan};
