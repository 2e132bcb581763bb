//! Laws of captures and the flights that they hold, stated on a function that does nothing.

ghost use Rattle.desk_flights.specs.Laws.{AreAsMany, CapturesHaveClasses, OpenPathsAreClasses};

/// There are as many captures as flights that they hold. An open path is a class of its plan, and the classes of a
/// capture are classes of each plan that has all paths that were open at its beginning.
pub fn captures_hold_flights()
    ensures count { AreAsMany }
    ensures open_paths { OpenPathsAreClasses }
    ensures classes { CapturesHaveClasses }
{}
