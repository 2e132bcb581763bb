//! The greatest lengths of payloads, in octets, as `Limits` in `specs/` has them.

/// The greatest length of a script, in octets: 262,144.
pub const MAX_SCRIPT_OCTETS: usize = sieve_text::MAX_OCTETS;

/// The greatest length of a message, in octets: 8,388,608.
pub const MAX_MESSAGE_OCTETS: usize = mail_head::MAX_OCTETS as usize;

/// The greatest length of a plan's text, in octets.
pub const MAX_PLAN_OCTETS: usize = 1_048_576;

/// The greatest length of an image, in octets.
pub const MAX_IMAGE_OCTETS: usize = 16_777_216;
