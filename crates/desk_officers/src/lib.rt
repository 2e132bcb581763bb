//! The scripts that all officers share, what each officer has set, and the image that is pinned for an officer's
//! capture.
//!
//! In `specs/`, `Register` says which office the officers represent, and `Current` which images may be kept. An
//! officer's script is compiled (`pinned`) once for each change of the scripts that it can include, and the image is
//! then shared. The image of the script that was last filed by is kept too (`filed`), as `Filed` in `specs/` says.
#![tactic(auto)]

mod filed;
mod officers;
mod pinned;
mod profile;
mod profiles;

pub use officers::Officers;
