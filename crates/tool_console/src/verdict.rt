//! What a subcommand comes to.

/// Whether all that was judged is good, or something was refused, which is reported.
#[derive(Clone, Copy)]
pub enum Verdict {
    Good,
    Refused,
}
