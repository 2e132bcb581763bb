//! The script that a message was last filed by.

use filing_verify::Verified;

/// A script that belongs to no officer, by its octets, and its image.
#[derive(Drop)]
pub(crate) struct FiledScript {
    pub text: Vec<u8>,
    pub image: Verified,
}
