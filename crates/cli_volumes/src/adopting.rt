//! A store in one file that becomes the first volume of a new archive.

ghost use Rattle.std.specs.Prelude.{◌∷◌, [], List, is_ok};
ghost use Rattle.cli_volumes.specs.Adopting as call;
ghost use Rattle.cli_volumes.specs.Adopting.{Adopts, Call, DoneBy, IsPlaced, WithLock};
ghost use Rattle.cli_volumes.specs.Finding.{Makes};

/// A folder that is to be made, and a file whose store is to be its first volume. It becomes that by these calls alone, so that a
/// contract can say which are made, and in which order.
pub trait AdoptingFolder {
    /// Why a call fails.
    type Fault: Drop;

    /// These calls have been made, in this order, with these answers.
    ghost made: { Self → List Call → Type 0 };

    /// Looks whether nothing is at the path of the folder. Fails where anything is.
    fn look(&mut self) -> Result<(), Self::Fault>
        ensures { Makes made self.old self.new (call.look (is_ok result) ∷ []) };

    /// Judges the file: it has a store, and all of it, once it is closed.
    fn judge(&mut self) -> Result<(), Self::Fault>
        ensures { Makes made self.old self.new (call.judge (is_ok result) ∷ []) };

    /// Makes the folder, in which no volume is begun.
    fn make(&mut self) -> Result<(), Self::Fault>
        ensures { Makes made self.old self.new (call.make (is_ok result) ∷ []) };

    /// Takes the lock of the folder. Fails where another program has it.
    fn lock(&mut self) -> Result<(), Self::Fault>
        ensures { Makes made self.old self.new (call.lock (is_ok result) ∷ []) };

    /// Moves the file to the place of the first volume. Fails where it changed since it was judged, and where it lies on another
    /// file system.
    fn place(&mut self) -> Result<(), Self::Fault>
        ensures { Makes made self.old self.new (call.place (is_ok result) ∷ []) };

    /// Notes that one volume was begun.
    fn note(&mut self) -> Result<(), Self::Fault>
        ensures { Makes made self.old self.new (call.note (is_ok result) ∷ []) };

    /// Removes the folder.
    fn discard(&mut self)
        ensures { Makes made self.old self.new (call.discard ∷ []) };

    /// Gives the lock back.
    fn unlock(&mut self)
        ensures { Makes made self.old self.new (call.unlock ∷ []) };
}

/// Moves the file, and notes that. Where it is not moved, the folder is removed.
fn place_noted<F: AdoptingFolder>(folder: &mut F) -> Result<(), F::Fault>
    ensures { DoneBy F.made folder.old folder.new IsPlaced result }
{
    match folder.place() {
        Ok(()) => folder.note(),
        Err(fault) => {
            folder.discard();
            Err(fault)
        }
    }
}

/// Moves the file under the lock of the folder, which is given back, whatever fails.
fn place_with_lock<F: AdoptingFolder>(folder: &mut F) -> Result<(), F::Fault>
    ensures { DoneBy F.made folder.old folder.new WithLock result }
{
    match folder.lock() {
        Ok(()) => {}
        Err(fault) => {
            folder.discard();
            return Err(fault);
        }
    }
    let placed = place_noted(folder);
    folder.unlock();
    placed
}

/// Makes the store of a file the first volume of a new folder.
///
/// Nothing is made before the file was judged, and it is moved last, but for the note of that. So where the program is killed, the file
/// is where it was, or the folder has it. A failure is that of a call. Where the file was not moved then, the folder is removed.
pub fn adopt_into<F: AdoptingFolder>(folder: &mut F) -> Result<(), F::Fault>
    ensures { DoneBy F.made folder.old folder.new Adopts result }
{
    match folder.look() {
        Ok(()) => {}
        Err(fault) => return Err(fault),
    }
    match folder.judge() {
        Ok(()) => {}
        Err(fault) => return Err(fault),
    }
    match folder.make() {
        Ok(()) => {}
        Err(fault) => return Err(fault),
    }
    place_with_lock(folder)
}
