//! How long the work on a message may take.

ghost use Rattle.std.specs.Prelude.{◌≡◌, ◌++◌, IfOk, OnOk};
ghost use Rattle.cli_changes.specs.Times.{seconds_words, too_slow_reason as too_slow_reason_of, too_slow_words as too_slow_words_of};

use cli_console::{Failure, Status};
use filing_desk::Patience;
use std::alloc::{AllocError, Global};
use std::time::{Duration, Instant};
use tool_texts::Shown;

/// The time that the work on a message may take, by a clock that cannot be set.
#[derive(Drop)]
pub struct TimeLimit<'a> {
    rt: &'a HostRuntime,
    begun: Instant,
    limit: Duration,
}

impl TimeLimit<'_> {
    /// A time of so many seconds that begins now. `TryAgain` where there is no clock.
    pub fn from_now(rt: &HostRuntime, seconds: u64) -> Result<TimeLimit<'_>, Failure> {
        let Ok(begun) = Instant::now(rt) else {
            return Err(Failure::told(rt.alloc(), Status::TryAgain, "no clock"));
        };
        Ok(TimeLimit {
            rt,
            begun,
            limit: Duration::from_secs(seconds),
        })
    }
}

impl Patience for TimeLimit<'_> {
    // What a clock shows, no contract can say.
    ghost asked = { λ _ _ _. Unit {0} };

    /// Whether more time has passed. That is so too where the clock can no longer be read.
    fn is_over(&mut self) -> bool {
        match self.begun.elapsed(self.rt) {
            Ok(taken) => taken > self.limit,
            Err(_) => true,
        }
    }
}

/// Adds a time in words.
fn put_seconds(text: &mut Shown, seconds: u64) -> Result<(), AllocError>
    ensures { OnOk result (text.new ≡ text.old ++ seconds_words seconds) }
{
    text.value(&seconds)?;
    text.words(if seconds == 1 { " second" } else { " seconds" })
}

/// What is told of a message that took longer than so many seconds.
#[tactic(auto, unfolding(crate::specs::Times::too_slow_words))]
pub fn too_slow_words(alloc: Global, seconds: u64) -> Result<Shown, AllocError>
    ensures { IfOk result (λ text. text ≡ too_slow_words_of seconds) }
{
    let mut text = Shown::new(alloc);
    text.words("the message took more than ")?;
    put_seconds(&mut text, seconds)?;
    text.words(" and is not captured")?;
    Ok(text)
}

/// Why a message stays that took longer than so many seconds.
#[tactic(auto, unfolding(crate::specs::Times::too_slow_reason))]
pub fn too_slow_reason(alloc: Global, seconds: u64) -> Result<Shown, AllocError>
    ensures { IfOk result (λ text. text ≡ too_slow_reason_of seconds) }
{
    let mut text = Shown::new(alloc);
    text.words("it took more than ")?;
    put_seconds(&mut text, seconds)?;
    Ok(text)
}
