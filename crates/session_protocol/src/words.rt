//! The words of a command line, and the numbers and names among them.

ghost use Rattle.std.specs.Prelude.{◌≡◌, ◌∷◌, [], Some, IfSome, IfNone, option_map};
ghost use Rattle.class_plan.specs.Calendar.{number_of_day};
ghost use Rattle.session_words.specs.Words.{words_of, number_up_to, greatest_number, greatest_length};
ghost use Rattle.session_protocol.specs.Dates.{day_of};
ghost use Rattle.session_protocol.specs.Words.{greatest_count, name_of, TakesWord};
ghost use Rattle.session_protocol.specs.WordsLeft.{words_left};

use crate::dates::read_day;
use crate::day::Day;
use session_words::{is_name, read_length, read_number};

/// How many steps one `TURN` grants at most.
const MAX_COUNT: u64 = 1_000_000;

/// The words of a line that are still to be taken. None are left after the last word. An empty text is one empty word.
#[derive(Clone, Copy)]
pub struct Words<'a> {
    rest: Option<&'a [u8]>,
}

#[tactic(auto, unfolding(crate::specs::Words::next_as))]
impl<'a> Words<'a> {
    /// All words of a line.
    pub fn new(line: &'a [u8]) -> Words<'a>
        ensures { words_left result ≡ words_of line.now }
    {
        Words { rest: Some(line) }
    }

    /// Takes the next word; none after the last one.
    pub fn next(&mut self) -> Option<&'a [u8]>
        ensures some { IfSome result (λ w. words_left self.old ≡ w.now ∷ words_left self.new) }
        ensures none { IfNone result (words_left self.old ≡ []) }
    {
        let text = self.rest?;
        match text.iter().position(|octet| *octet == b' ') {
            None => {
                self.rest = None;
                Some(text)
            }
            Some(at) => {
                self.rest = Some(&text[at + 1..]);
                Some(&text[..at])
            }
        }
    }

    /// Takes the next word as a path, which any word is, also an empty one. None after the last word.
    pub fn path(&mut self) -> Option<&'a [u8]>
        ensures { TakesWord Some (option_map (λ p. p.now) result) (words_left self.old)
            (words_left self.new) }
    {
        self.next()
    }

    /// Takes the next word as a name: 1 to 64 octets from 33 to 126. None for any other word.
    pub fn name(&mut self) -> Option<&'a [u8]>
        ensures { TakesWord name_of (option_map (λ n. n.now) result) (words_left self.old)
            (words_left self.new) }
    {
        let word = self.next()?;
        is_name(word).then_some(word)
    }

    /// Takes the next word as the number of a record, a ticket or a moment: decimal, without a leading zero, at most
    /// 18,446,744,073,709,551,615. None for any other word.
    pub fn number(&mut self) -> Option<u64>
        ensures { TakesWord (number_up_to greatest_number) result (words_left self.old)
            (words_left self.new) }
    {
        read_number(self.next()?, u64::MAX)
    }

    /// Takes the next word as the length of a payload in octets: decimal, without a leading zero, at most
    /// 4,294,967,295. None for any other word.
    pub fn size(&mut self) -> Option<usize>
        ensures { TakesWord (number_up_to greatest_length) result (words_left self.old)
            (words_left self.new) }
    {
        let size = read_length(self.next()?)?;
        Some(size as usize)
    }

    /// Takes the next word as a number of steps: decimal, without a leading zero, at most 1,000,000. None for any other
    /// word.
    pub fn count(&mut self) -> Option<u32>
        ensures { TakesWord (number_up_to greatest_count) result (words_left self.old)
            (words_left self.new) }
    {
        let count = read_number(self.next()?, MAX_COUNT)?;
        Some(count as u32)
    }

    /// Takes the next word as a day, `YYYY-MM-DD`: a date that the calendar has, in the years 1970 to 9999. None for
    /// any other word.
    pub fn day(&mut self) -> Option<Day>
        ensures { TakesWord day_of (option_map (λ d. number_of_day d.date) result)
            (words_left self.old) (words_left self.new) }
    {
        read_day(self.next()?)
    }
}
