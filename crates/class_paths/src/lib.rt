//! Paths of classes, and sets of such paths: what the plan of classes and the meaning of scripts both speak of.
//!
//! The files of `specs/`, in the order to read them:
//!
//! - `Path`: which octets are a path, its ancestors, and the class that is always there;
//! - `Paths`: sets of paths.
#![tactic(auto)]

mod path;
mod paths;

pub use path::{SLASH, UNFILED, fits_path};
pub use paths::Paths;
