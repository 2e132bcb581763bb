//! Laws of the definitions, each stated on a function that does nothing.

ghost use Rattle.filing_flow.specs.Whole.{RunsAsItsCode, TypedIsWell};
ghost use Rattle.filing_flow.specs.Procedures.{RunsAsItsProcedures, TypedProceduresAreWell};

/// The run of a program of sound code in blocks ends as the code does, with the same outcome.
pub fn a_program_runs_as_its_code()
    ensures { RunsAsItsCode }
{}

/// A program of sound code in blocks that has a type may run, where it has at most 64 slots and its budget, at most
/// 65,535, has a step for each operation.
pub fn typed_code_is_well()
    ensures { TypedIsWell }
{}

/// The run of a program of sound procedures ends as the call of the first one does, with the same outcome.
pub fn a_program_runs_as_its_procedures()
    ensures { RunsAsItsProcedures }
{}

/// A program of 1 to 256 sound procedures that have types may run. It has at most 64 slots, and a budget of at most
/// 1,000,000 that has the steps of the first procedure. There each call counts the steps of its procedure.
pub fn typed_procedures_are_well()
    ensures { TypedProceduresAreWell }
{}
