//! Laws of turns and tickets, each the contract of a function without effect.

ghost use Rattle.std.specs.Prelude.{◌≡◌, ◌<◌, ◌≤◌, ◌↔◌, ℕ, None};
ghost use Rattle.record_archive.specs.Archive.{Archive};
ghost use Rattle.desk_commands.specs.Answers.{Answer, refused};
ghost use Rattle.desk_commands.specs.Standing.{Flight, Standing, Step, finish, opening, turn};
ghost use Rattle.promises.specs.Beginnings.{tickets_given, AreNumbersUpTo, BeginFrom, HasNoPlace, HasNoTicket, HasPlace, MayBegin};
ghost use Rattle.promises.specs.Flights.{FinishOf, IsInFlight, NoneInFlight};
ghost use Rattle.promises.specs.Runs.{IsReachedState, SessionFrom};
ghost use Rattle.promises.specs.Turns.{AllGrant, HasEnded, IsRunning, TellsTurns};

use filing_machine::every_run_ends;
use filing_table::a_run_ends_once;

/// In a session that begins with an archive:
/// - the steps granted to a capture in flight are the sum of those that the TURNs of its ticket granted; one that was
///   answered 99 granted fewer than it asked for;
/// - a TURN is answered `ended N` where the steps granted so far, its own among them, reach the length N of the run of
///   what is pinned; else it is answered `running` with the steps granted so far, or 99;
/// - a FINISH of a capture in flight is refused with 92 exactly where the steps granted do not reach that length;
/// - a capture that was granted as many steps as its budget has come to its end.
pub fn turns_add_up()
    ensures sum { (a : Archive) (x : SessionFrom (opening a)) (t : ℕ) (f : Flight)
        → IsInFlight x.new t f → AllGrant t x.commands x.answers f.granted }
    ensures told { (s new : Standing) (t n : ℕ) (a : Answer) (f : Flight)
        → Step s (turn t n) a new → IsInFlight new t f → TellsTurns f.granted f.run_length a }
    ensures finish { (s new : Standing) (t : ℕ) (a : Answer) (f : Flight)
        → Step s (finish t) a new → IsInFlight s t f → (a ≡ refused 92 None) ↔ IsRunning f }
    ensures enough { (s : Standing) (t : ℕ) (f : Flight) → IsReachedState s → IsInFlight s t f
        → f.pinned.budget ≤ f.granted → HasEnded f }
{
    every_run_ends();
    a_run_ends_once();
}

/// A TURN or a FINISH is refused with 91 exactly where its ticket is not in flight. A FINISH that makes the records of
/// a capture gives the ticket up: it is not in flight any more. A ticket that was not given yet is not in flight either.
pub fn tickets_are_looked_up_exactly()
    ensures turn { (s : Standing) (t count : ℕ) (a : Answer) (new : Standing)
        → Step s (turn t count) a new → (a ≡ refused 91 None) ↔ NoneInFlight s t }
    ensures finish { (s : Standing) (t : ℕ) (a : Answer) (new : Standing)
        → Step s (finish t) a new → (a ≡ refused 91 None) ↔ NoneInFlight s t }
    ensures given_up { (s : Standing) (t : ℕ) (x : FinishOf s t) → IsReachedState s
        → NoneInFlight x.new t }
    ensures not_given { (s : Standing) (t : ℕ) → IsReachedState s → s.last < t → NoneInFlight s t }
{}

/// In a session that begins with an archive:
/// - the tickets given are 1, 2 and so on, each once and in order, up to the last one;
/// - a BEGIN is refused with 90 exactly where sixty-four captures are in flight, and neither its moment is later than
///   2199 (94) nor its message too long (95);
/// - it is refused with 97 exactly where ticket 4,294,967,295 was given, and none of 94, 95 and 90 holds.
pub fn beginnings_are_refused_exactly()
    ensures tickets { (a : Archive) (x : SessionFrom (opening a))
        → AreNumbersUpTo 0 (tickets_given x.answers) x.new.last }
    ensures in_flight { (s : Standing) (x : BeginFrom s) → IsReachedState s
        → (x.answer ≡ refused 90 None) ↔ (HasNoPlace s × MayBegin x.moment x.message) }
    ensures used_up { (s : Standing) (x : BeginFrom s) → IsReachedState s
        → (x.answer ≡ refused 97 None)
        ↔ (HasNoTicket s × HasPlace s × MayBegin x.moment x.message) }
{}
