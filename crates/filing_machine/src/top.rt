//! The topmost entry of a machine's stack.

/// The topmost entry of a machine's stack.
#[derive(Clone, Copy)]
pub enum Top {
    Truth(bool),
    /// A list, with the number of its values.
    Values(usize),
    Number(u64),
}
