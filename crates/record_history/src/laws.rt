//! The laws of histories.

ghost use Rattle.record_history.specs.Laws.{CommandsAreTold};
ghost use Rattle.record_history.specs.OneReading.{LinesHaveOneReading};

/// The law `CommandsAreTold` of the definitions: where events explain an archive and a command makes another of it, the events
/// with that of the command explain the other. The function does nothing.
pub fn commands_are_told()
    ensures { CommandsAreTold }
{}

/// The law `LinesHaveOneReading` of the definitions: no two events, and no two numbers, have one line, where who did it,
/// names, paths, sums, notes and the reason are as `Readable` says. The function does nothing.
pub fn lines_have_one_reading()
    ensures { LinesHaveOneReading }
{}
