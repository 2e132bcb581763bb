//! Laws of sessions and streams, each the contract of a function without code.

ghost use Rattle.std.specs.Prelude.{ℕ, List};
ghost use Rattle.desk_commands.specs.Answers.{Answer};
ghost use Rattle.desk_commands.specs.Calls.{Calls};
ghost use Rattle.desk_commands.specs.Standing.{Step};
ghost use Rattle.session_protocol.specs.Crashes.{RunsLeave};
ghost use Rattle.session_protocol.specs.Laws.{Refines, RunsAreSure, RunsLead};
ghost use Rattle.session_protocol.specs.Session.{Item, Session, Run, IsServed, IsAnswered, IsCutInAnswer, IsCutInEnding};

use crate::input::Input;
use crate::output::Output;
use crate::stream::{Sink, Source};
use desk_commands::Registry;

/// What the contract of `serve` says about a registry holds for the states that the registry represents. Each state
/// that it represents before the session leads, by the steps of the commands, to one that it represents after it. Only
/// an answer that comes from the archive needs a clean registry: whatever becomes of the disk afterwards, turns,
/// refusals of tickets and the like are right (`leads`). What a crash leaves keeps the archive after the first of the
/// commands, among them all that the archive has carried out (`crash`).
pub fn sessions_refine_states<R: Registry>()
    ensures sure { RunsAreSure R.keeper }
    ensures leads { RunsLead R.keeper }
    ensures done { (items : List Item) (answers : List Answer) → Refines R.keeper
        (λ desk. Run (Calls R.keeper) desk items answers) (λ s. Run Step s items answers) }
    ensures served { (session : Session) (old written : List ℕ) → Refines R.keeper
        (λ desk. IsServed (Calls R.keeper) session desk old written)
        (λ s. IsServed Step session s old written) }
    ensures answered { (session : Session) (old written : List ℕ) → Refines R.keeper
        (λ desk. IsAnswered (Calls R.keeper) session desk old written)
        (λ s. IsAnswered Step session s old written) }
    ensures cut_in_answer { (session : Session) (old written : List ℕ) → Refines R.keeper
        (λ desk. IsCutInAnswer (Calls R.keeper) session desk old written)
        (λ s. IsCutInAnswer Step session s old written) }
    ensures cut_in_ending { (session : Session) (old written : List ℕ) → Refines R.keeper
        (λ desk. IsCutInEnding (Calls R.keeper) session desk old written)
        (λ s. IsCutInEnding Step session s old written) }
    ensures crash { RunsLeave R.keeper }
{}

/// The program's streams know their octets over memory: the source over a slice, and the sink over a vector. So what
/// `serve` says where its streams know theirs, it says of the program's own buffers.
pub fn streams_over_memory_tell()
    ensures source { ⟦<Input<&'static [u8]> as Source>⟧.tells }
    ensures sink { ⟦<Output<Vec<u8>> as Sink>⟧.tells }
{}
