//! Records whose messages are not the ones that were captured.

ghost use Rattle.std.specs.Prelude.{◌≡◌, ◌++◌, ◌==◌, ◌||◌, ℕ, false, flat_map, length, IfOk, IsOk, OnOk};
ghost use Rattle.cli_readings.specs.Altered.{IsEnd, altered_words, is_noted, one_words, several_words, typed_in};

use choice_words::{TypedNumbers, add_number};
use cli_console::{Failure, Status, put_typed, tell};
use cli_texts::put_number;
use std::alloc::{AllocError, Global};
use tool_texts::Shown;

/// Records whose messages are not the ones that were captured, by number.
#[derive(Drop)]
pub struct Altered {
    /// As words of a command line.
    numbers: Vec<TypedNumbers>,
}

/// Adds numbers of records as they are typed, of a volume in an archive of volumes, after a blank.
fn put_one(line: &mut Shown, volume: Option<u32>, numbers: TypedNumbers) -> Result<(), AllocError>
    ensures { OnOk result (line.new ≡ line.old ++ typed_in volume numbers) }
{
    line.words(" ")?;
    put_typed(line, volume, numbers)
}

/// Adds numbers of records as they are typed, each after a blank.
fn put_all(
    line: &mut Shown,
    volume: Option<u32>,
    numbers: &[TypedNumbers],
) -> Result<(), AllocError>
    ensures { OnOk result (line.new ≡ line.old ++ flat_map (typed_in volume) numbers.now) }
{
    for typed in numbers {
        put_one(line, volume, *typed)?;
    }
    Ok(())
}

/// That the message of a record is not the one that was captured.
#[tactic(auto, unfolding(crate::specs::Altered::one_words))]
fn one_line(alloc: Global, volume: Option<u32>, number: u32) -> Result<Shown, AllocError>
    ensures { IfOk result (λ line. line ≡ one_words volume number) }
{
    let mut line = Shown::new(alloc);
    line.words("record ")?;
    put_number(&mut line, volume, number)?;
    line.words(": its message is not the one that was captured")?;
    Ok(line)
}

/// That the messages of some records are not the ones that were captured.
#[tactic(auto, unfolding(crate::specs::Altered::several_words))]
fn several_line(
    alloc: Global,
    volume: Option<u32>,
    numbers: &[TypedNumbers],
) -> Result<Shown, AllocError>
    ensures { IfOk result (λ line. line ≡ several_words volume numbers.now) }
{
    let mut line = Shown::new(alloc);
    line.words("records")?;
    put_all(&mut line, volume, numbers)?;
    line.words(": the message of each is not the one that was captured")?;
    Ok(line)
}

/// That the messages of some records, of a volume in an archive of volumes, are not the ones that were captured. The numbers can
/// be typed as they stand there.
fn altered_line(
    alloc: Global,
    volume: Option<u32>,
    numbers: &[TypedNumbers],
) -> Result<Shown, AllocError>
    ensures { IfOk result (λ line. line ≡ altered_words volume numbers.now) }
{
    match numbers {
        [TypedNumbers::One(number)] => one_line(alloc, volume, *number),
        _ => several_line(alloc, volume, numbers),
    }
}

impl Altered {
    /// No record.
    pub fn none(alloc: Global) -> Altered
        ensures { (n : ℕ) → is_noted result n ≡ false }
    {
        Altered {
            numbers: Vec::new(alloc),
        }
    }

    /// Adds a record, after those with smaller numbers.
    pub fn add(&mut self, number: u32) -> Result<(), AllocError>
        ensures { OnOk result ((n : ℕ) → is_noted self.new n
            ≡ (is_noted self.old n || (n == number))) }
    {
        add_number(&mut self.numbers, number)
    }

    /// Whether there is no record.
    pub fn is_empty(&self) -> bool
        ensures { result ≡ (length self.now.numbers.items == 0) }
    {
        self.numbers.is_empty()
    }

    /// Tells which records these are, in one line, where there is one: those of a volume with its number, in an archive of volumes.
    pub fn tell_in(&self, rt: &HostRuntime, volume: Option<u32>) -> Result<(), AllocError> {
        if !self.is_empty() {
            tell(
                rt,
                &altered_line(rt.alloc(), volume, self.numbers.as_slice())?,
            );
        }
        Ok(())
    }

    /// Ends what was done without them. `BadData` where there is one, which was told.
    pub fn end(&self) -> Result<(), Failure>
        ensures ended { IsEnd (length self.now.numbers.items == 0) result }
        ensures none { IsOk result → (n : ℕ) → is_noted self.now n ≡ false }
    {
        if self.is_empty() {
            Ok(())
        } else {
            Err(Failure::Reported(Status::BadData))
        }
    }
}
