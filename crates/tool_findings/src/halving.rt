//! A search by halves.

/// A search for the least number below a count for which a test holds. The test holds for each greater number too. The
/// search is over after at most as many tests as a number has bits.
#[derive(Clone, Copy)]
pub struct Search {
    low: usize,
    high: usize,
}

impl Search {
    /// A search below `count`, before its first test.
    pub fn below(count: usize) -> Search {
        Search {
            low: 0,
            high: count,
        }
    }

    /// The number to be tested next; none where the search is over.
    pub fn next(&self) -> Option<usize> {
        if self.low < self.high {
            Some(self.low + (self.high - self.low) / 2)
        } else {
            None
        }
    }

    /// Takes the result of the test of a number.
    pub fn told(&mut self, number: usize, holds: bool) {
        if holds {
            self.high = number;
        } else {
            self.low = number.saturating_add(1);
        }
    }

    /// The least number, once the search is over; the count where the test holds for none.
    pub fn found(&self) -> usize {
        self.low
    }
}
