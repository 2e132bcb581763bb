//! The volume into which a message goes.

ghost use Rattle.std.specs.Prelude.{◌≡◌, ◌∷◌, [], List, is_ok};
ghost use Rattle.cli_volumes.specs.Finding as call;
ghost use Rattle.cli_volumes.specs.Finding.{Call, Finds, FindsBy, IsTaken, Makes, UnderLock, WithLock, goes_into, is_settled, seen_in, step_of};

use record_volumes::{Target, target_of};

/// What a look at a folder of volumes sees.
#[derive(Clone, Copy)]
pub struct Seen {
    /// The number of the last volume.
    pub last: u32,
    /// How many octets it has.
    pub octets: u64,
    /// How many volumes are noted as begun.
    pub begun: u32,
    /// Over how many octets a volume is over its size.
    pub size: u64,
}

/// What is done before a message is captured.
#[derive(Clone, Copy)]
pub enum Step {
    /// Nothing: it goes into this volume.
    Into(u32),
    /// It goes into this volume, which is not noted as begun.
    Note(u32),
    /// It goes into this volume, which is to be begun.
    Begin(u32),
}

/// A folder of volumes. A volume is found by these calls alone, so that a contract can say which are made, and in which
/// order.
pub trait VolumeFolder {
    /// Why a call fails.
    type Fault: Drop;

    /// These calls have been made, in this order, with these answers.
    ghost made: { Self → List Call → Type 0 };

    /// Looks at the row of the volumes. Fails also where one is missing.
    fn look(&mut self) -> Result<Seen, Self::Fault>
        ensures { Makes made self.old self.new (call.look (seen_in result) ∷ []) };

    /// Takes the lock under which volumes are begun. Fails where another program has it.
    fn lock(&mut self) -> Result<(), Self::Fault>
        ensures { Makes made self.old self.new (call.lock (is_ok result) ∷ []) };

    /// Makes a volume in which nothing is captured, which has its name once it is whole.
    fn begin(&mut self, volume: u32) -> Result<(), Self::Fault>
        ensures { Makes made self.old self.new (call.begin volume (is_ok result) ∷ []) };

    /// Notes that so many volumes were begun.
    fn note(&mut self, volume: u32) -> Result<(), Self::Fault>
        ensures { Makes made self.old self.new (call.note volume (is_ok result) ∷ []) };

    /// Gives the lock back.
    fn unlock(&mut self)
        ensures { Makes made self.old self.new (call.unlock ∷ []) };
}

/// What is done about what was seen.
fn step_of(seen: Seen) -> Step
    ensures { result ≡ step_of seen }
{
    match target_of(seen.last, seen.octets, seen.size) {
        Target::Next(volume) => Step::Begin(volume),
        Target::Last(volume) => {
            if seen.begun < volume {
                Step::Note(volume)
            } else {
                Step::Into(volume)
            }
        }
    }
}

/// Whether nothing is to be done.
fn is_settled(step: Step) -> bool
    ensures { result ≡ is_settled step }
{
    matches!(step, Step::Into(_))
}

/// The volume into which a message goes once a step is done.
fn goes_into(step: Step) -> u32
    ensures { result ≡ goes_into step }
{
    match step {
        Step::Into(volume) | Step::Note(volume) | Step::Begin(volume) => volume,
    }
}

/// Begins a volume and notes that.
fn begin<F: VolumeFolder>(folder: &mut F, volume: u32) -> Result<u32, F::Fault>
    ensures { FindsBy F.made folder.old folder.new (IsTaken (Step.Begin volume)) result }
{
    match folder.begin(volume) {
        Ok(()) => {}
        Err(fault) => return Err(fault),
    }
    match folder.note(volume) {
        Ok(()) => Ok(volume),
        Err(fault) => Err(fault),
    }
}

/// Notes that a volume was begun.
fn note<F: VolumeFolder>(folder: &mut F, volume: u32) -> Result<u32, F::Fault>
    ensures { FindsBy F.made folder.old folder.new (IsTaken (Step.Note volume)) result }
{
    match folder.note(volume) {
        Ok(()) => Ok(volume),
        Err(fault) => Err(fault),
    }
}

/// Does what is to be done, and answers into which volume a message goes then.
fn take_step<F: VolumeFolder>(folder: &mut F, step: Step) -> Result<u32, F::Fault>
    ensures { FindsBy F.made folder.old folder.new (IsTaken step) result }
{
    match step {
        Step::Into(volume) => Ok(volume),
        Step::Note(volume) => note(folder, volume),
        Step::Begin(volume) => begin(folder, volume),
    }
}

/// Looks once more, under the lock, and does what is to be done then.
fn find_locked<F: VolumeFolder>(folder: &mut F) -> Result<u32, F::Fault>
    ensures { FindsBy F.made folder.old folder.new UnderLock result }
{
    match folder.look() {
        Ok(seen) => take_step(folder, step_of(seen)),
        Err(fault) => Err(fault),
    }
}

/// Takes the lock, looks once more and does what is to be done then, and gives the lock back, whatever fails.
fn find_with_lock<F: VolumeFolder>(folder: &mut F) -> Result<u32, F::Fault>
    ensures { FindsBy F.made folder.old folder.new WithLock result }
{
    match folder.lock() {
        Ok(()) => {}
        Err(fault) => return Err(fault),
    }
    let found = find_locked(folder);
    folder.unlock();
    found
}

/// The volume into which the next message goes: the last one, or a next one, which is begun, where the last is over its size.
/// Of two programs that find it so at the same time, the one that takes the lock begins the volume; the other one is refused
/// the lock, or sees the volume of the first once it has the lock.
///
/// A failure is that of a call. The lock is given back then too.
pub fn volume_for_capture<F: VolumeFolder>(folder: &mut F) -> Result<u32, F::Fault>
    ensures { FindsBy F.made folder.old folder.new Finds result }
{
    let seen = match folder.look() {
        Ok(seen) => seen,
        Err(fault) => return Err(fault),
    };
    let step = step_of(seen);
    if is_settled(step) {
        return Ok(goes_into(step));
    }
    find_with_lock(folder)
}
