//! Lines and columns of offsets in any order, each by a short walk.

ghost use Rattle.std.specs.Prelude.{◌≡◌, All, IfOk};
ghost use Rattle.tool_places.specs.Places.{place_at};

use crate::places::{Stop, beginning, next_stop, walked};
use std::alloc::{AllocError, Global};
use tool_texts::Place;

/// How many octets lie between two stops. It is the longest walk from a stop to an offset.
const STRIDE: usize = 256;

/// A text, and the lines and columns at every 256th of its octets.
#[derive(Drop)]
pub struct PlaceMap<'t> {
    text: &'t [u8],
    stops: Vec<Stop>,
    ghost right: { All (λ stop. stop.place ≡ place_at text.now stop.offset) stops.items },
}

impl<'t> PlaceMap<'t> {
    /// Reads a text, in time linear in it. The only error is out of memory.
    pub fn new(alloc: Global, text: &'t [u8]) -> Result<PlaceMap<'t>, AllocError>
        ensures { IfOk result (λ map. map.text.now ≡ text.now) }
    {
        let mut stops = Vec::new(alloc);
        let mut stop = beginning();
        for chunk in text.chunks(STRIDE) {
            stops.push(stop)?;
            let offset = stop.offset.saturating_add(chunk.len()).min(text.len());
            stop = next_stop(text, stop, offset);
        }
        Ok(PlaceMap { text, stops })
    }

    /// The text.
    pub fn text(&self) -> &'t [u8]
        ensures { result.now ≡ self.now.text.now }
    {
        self.text
    }

    /// The line and the column of an offset, as `place_of` gives them, by a walk of at most 256 octets. An offset past
    /// the end of the text counts as its end.
    pub fn place(&self, offset: usize) -> Place
        ensures { result ≡ place_at self.now.text.now offset }
    {
        let offset = offset.min(self.text.len());
        let from = match self.stops.get(offset / STRIDE) {
            Some(stop) if stop.offset <= offset => *stop,
            _ => beginning(),
        };
        walked(self.text, from, offset)
    }
}
