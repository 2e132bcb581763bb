//! Octets in a buffer of a fixed size: read all at once, and taken from the front.

ghost use Rattle.std.specs.Prelude.{◌≡◌, ◌<◌, ◌≤◌, [], length, take, drop, min, IsTrue, ◌↔◌, OnOk, OnErr};
ghost use Rattle.std.specs.Io.KnownBytes.{Consumes, IsAtEnd, Keeps};

use std::io::{self, Read};
use std::marker::Model;

/// Octets that are still to be taken, of which there is room for `N`. Contracts see it as their list.
pub struct Window<const N: usize> {
    octets: [u8; N],
    start: usize,
    end: usize,
}

impl<const N: usize> Model for Window<N> {
    ghost use Rattle.std.specs.Prelude.{List, ℕ, ◌≤◌, ◌<◌, slice_range};

    ghost Value = { List ℕ };

    ghost view = { λ w. slice_range w.octets w.start w.end };

    ghost invariant = { λ w. (w.start ≤ w.end) × (w.end ≤ N) × (0 < N) };
}

impl<const N: usize> Drop for Window<N> {
    fn drop(self) {
        let Self {
            octets: _,
            start: _,
            end: _,
        } = self;
    }
}

impl<const N: usize> Window<N> {
    /// An empty buffer, for at least one octet.
    pub fn new() -> Window<N>
        requires { 0 < N }
        ensures { result ≡ [] }
    {
        Window {
            octets: [0; N],
            start: 0,
            end: 0,
        }
    }

    /// Whether no octet is left to be taken.
    pub fn is_empty(&self) -> bool
        ensures { IsTrue result ↔ self.now ≡ [] }
    {
        self.start >= self.end
    }

    /// The octets that are still to be taken.
    pub fn as_slice(&self) -> &[u8]
        ensures { result.now ≡ self.now }
    {
        let octets = &self.octets[..];
        &octets[self.start..self.end]
    }

    /// Fills an empty buffer by one read. It stays empty only at the reader's end or after an error.
    pub fn fill<R: Read>(&mut self, reader: &mut R) -> io::Result<()>
        requires { self.old ≡ [] }
        ensures bytes { OnOk result
            (Consumes (R.remaining reader.old) (R.remaining reader.new) self.new) }
        ensures end { OnOk result (self.new ≡ [] → IsAtEnd (R.remaining reader.new)) }
        ensures failed { OnErr result (Keeps (R.remaining reader.old) (R.remaining reader.new)) }
        ensures same { OnErr result (self.new ≡ []) }
    {
        let got = reader.read(&mut self.octets)?;
        self.start = 0;
        self.end = got;
        Ok(())
    }

    /// Lets the first `count` octets go.
    fn release(&mut self, count: usize)
        requires { count ≤ length self.old }
        ensures { self.new ≡ drop count self.old }
    {
        self.start += count;
    }

    /// Takes as many octets from the front as there are and as fit `room`, and answers how many.
    pub fn take(&mut self, room: &mut [u8]) -> usize
        ensures count { result ≡ min (length self.old) (length room.old) }
        ensures taken { take result room.new ≡ take result self.old }
        ensures rest { self.new ≡ drop result self.old }
    {
        let octets = self.as_slice();
        let count = octets.len().min(room.len());
        room[..count].copy_from_slice(&octets[..count]);
        self.release(count);
        count
    }
}
