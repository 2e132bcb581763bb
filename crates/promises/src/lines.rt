//! What the laws of sessions say of the lines that `serve` reads, each the contract of a function without effect.

ghost use Rattle.std.specs.Prelude.{List};
ghost use Rattle.desk_commands.specs.Answers.{Answer};
ghost use Rattle.desk_commands.specs.Standing.{Standing, Step};
ghost use Rattle.session_protocol.specs.Session.{Item, Run};
ghost use Rattle.promises.specs.Lines.{AreServedAlike, EqualLinesLeft, IsSession, LeaveTheSame, LineSession, ReplyAlike, ServedSession, answers_in, commands_in};
ghost use Rattle.promises.specs.Runs.{Steps};
ghost use Rattle.promises.specs.Serial.{SameButTurns};

use desk_commands::Registry;
use filing_image::one_spelling;
use filing_table::a_run_ends_once;
use session_protocol::sessions_refine_states;
use sieve_text::{one_scan, one_tree, one_verdict};

/// Two sessions of lines that are equal after striking are answered alike, except for offsets and for 20 in the place
/// of 21. They leave the same archive, scripts, programs and tickets. They begin at registries that represent one
/// state, or two states that differ only in the turns of their captures in flight. The same holds for the octets that
/// `serve` reads and writes: it has written answers to the lines that it has read. The disk may fail in between; only
/// after an answer that comes from the archive the registry is to be clean.
pub fn equal_lines_after_striking<R: Registry>()
    ensures lines { (x y : LineSession R.keeper)
        → SameButTurns x.state y.state → EqualLinesLeft x y
        → ReplyAlike x y × LeaveTheSame R.keeper x.new y.new }
    ensures octets { (x y : ServedSession R.keeper)
        → SameButTurns x.state y.state → AreServedAlike x y }
{
    one_scan();
    one_verdict();
    one_tree();
    one_spelling();
    a_run_ends_once();
    sessions_refine_states::<R>();
}

/// The commands among the lines of a session, with their answers, are a session of commands. So each law of sessions
/// speaks of what `serve` has done at a registry: its clause `done` says that lines were done with answers, and each
/// state that the registry represented before them leads to one that it represents after them. An answer that comes
/// from the archive needs a registry that is clean after it. The answers to BEGIN, TURN, scripts, programs and dry runs
/// hold on any disk, and so do refusals for a ticket (91), for an end that is not reached (92), for lack of memory (99)
/// and by the database (89).
pub fn lines_are_sessions<R: Registry>()
    ensures steps { (s new : Standing) (items : List Item) (answers : List Answer)
        → Run Step s items answers new
        → Steps s (commands_in items) (answers_in items answers) new }
    ensures registry { (x : LineSession R.keeper)
        → IsSession R.keeper x.state x.items x.answers x.new }
{
    sessions_refine_states::<R>();
}
