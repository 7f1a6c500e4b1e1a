//! What holds of typed programs, as contracts of functions that do nothing.
ghost use Rattle.p4_program.specs.Built.{Built};
ghost use Rattle.p4_program.specs.Syntax.Programs.{CoreProgram};
ghost use Rattle.p4_program.specs.WellFormed.Programs.{WellFormed};

/// Some program is well-formed and built, so that the invariant of programs is no empty promise.
pub fn some_program_is_built()
    ensures { (p : CoreProgram) × WellFormed p × Built p }
{}
