//! A script that is repaired part by part.

use std::alloc::{AllocError, Global};

/// What replaces a part of a text.
#[derive(Clone, Copy)]
pub struct Patch {
    /// Where the part begins, an offset in octets.
    pub start: usize,
    /// Where it ends.
    pub end: usize,
    /// The octets in its place.
    pub with: &'static [u8],
}

impl Patch {
    /// Octets that are put in at an offset.
    pub fn insertion(at: usize, with: &'static [u8]) -> Patch {
        Patch {
            start: at,
            end: at,
            with,
        }
    }
}

/// A text with a patch.
pub fn patched(alloc: Global, text: &[u8], patch: Patch) -> Result<Vec<u8>, AllocError> {
    let end = patch.end.min(text.len());
    let start = patch.start.min(end);
    let mut new = Vec::with_capacity(alloc, text.len())?;
    new.extend_from_slice(&text[..start])?;
    new.extend_from_slice(patch.with)?;
    new.extend_from_slice(&text[end..])?;
    Ok(new)
}

/// A script as far as it is repaired.
pub struct Repaired {
    alloc: Global,
    text: Vec<u8>,
    /// Where each octet of the text was in the script, or what it replaces, an offset in octets.
    origins: Vec<usize>,
    /// How many octets the script had.
    length: usize,
    /// The capabilities that are required before the script begins.
    required: Vec<&'static str>,
}

impl Drop for Repaired {
    fn drop(self) {
        let Repaired {
            alloc: _,
            text: _,
            origins: _,
            length: _,
            required: _,
        } = self;
    }
}

/// The `require` of a capability that a command can need.
fn require_of(capability: &str) -> &'static [u8] {
    match capability {
        "fileinto" => b"require\"fileinto\";",
        "copy" => b"require\"copy\";",
        _ => b"require\"include\";",
    }
}

impl Repaired {
    /// A script as it is.
    pub fn new(alloc: Global, text: &[u8]) -> Result<Repaired, AllocError> {
        let mut origins = Vec::with_capacity(alloc, text.len())?;
        for origin in 0..text.len() {
            origins.push(origin)?;
        }
        Ok(Repaired {
            alloc,
            text: Vec::from_slice(alloc, text)?,
            origins,
            length: text.len(),
            required: Vec::new(alloc),
        })
    }

    /// The script as far as it is repaired.
    pub fn text(&self) -> &[u8] {
        self.text.as_slice()
    }

    /// The offset in the script as it was of an offset in the repaired one.
    pub fn offset(&self, at: usize) -> usize {
        self.origins.get(at).copied().unwrap_or(self.length)
    }

    /// Replaces a part.
    pub fn patch(&mut self, patch: Patch) -> Result<(), AllocError> {
        let end = patch.end.min(self.origins.len());
        let start = patch.start.min(end);
        let origin = self.offset(start);
        let mut origins = Vec::with_capacity(self.alloc, self.origins.len())?;
        origins.extend_from_slice(&self.origins[..start])?;
        for _ in patch.with {
            origins.push(origin)?;
        }
        origins.extend_from_slice(&self.origins[end..])?;
        self.origins = origins;
        self.text = patched(self.alloc, &self.text, patch)?;
        Ok(())
    }

    /// Requires a capability before the script begins; false where that was done before.
    pub fn require(&mut self, capability: &'static str) -> Result<bool, AllocError> {
        if self.required.iter().any(|it| *it == capability) {
            return Ok(false);
        }
        self.required.push(capability)?;
        self.patch(Patch::insertion(0, require_of(capability)))?;
        Ok(true)
    }
}
