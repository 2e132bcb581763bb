//! The folders of all rules: which files in them are scripts, whose they are, and which of them a program reaches.
//!
//! `FOLDER/OFFICER/main.sieve` is the program of an officer, `FOLDER/OFFICER/NAME.sieve` another script of the officer, and
//! `FOLDER/global/NAME.sieve` one that every officer's scripts can include. All programs that read rules find them by
//! this crate.
//!
//! - `names`: which names officers, scripts and recipients have;
//! - `includes`: the scripts that a script includes;
//! - `reached`: the scripts that a program reaches by its includes; `laws`: what any walk along them satisfies.
//!
//! `specs/Names` defines the names, `specs/Paths` where files are, `specs/Includes` what a text includes, and `specs/Reached`
//! which scripts are reached. What a file has no contract can say: a walk is right by the answers that its reads gave.
#![tactic(auto)]

mod includes;
mod laws;
mod names;
mod reached;

pub use includes::{Included, includes_in, tokens_of};
pub use laws::reached_are_exactly;
pub use names::{
    GLOBAL, MAIN, SCRIPT_ENDING, is_domain, is_officer, is_recipient, is_script_name, path_in,
    script_in,
};
pub use reached::{Found, Reached, Script, Scripts};
