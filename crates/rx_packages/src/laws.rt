//! What holds of programs, as contracts.

ghost use Rattle.rx_packages.specs.Laws.{AtMostOneProgram, ProgramsAreValid};

/// A source is at most one program, and each program is valid: methods and routines have their bodies, its classes can be
/// installed in their order, and it has at most 1,000,000 classes and 16,777,216 clauses and places at which variables are named.
pub fn program_laws()
    ensures one { AtMostOneProgram }
    ensures valid { ProgramsAreValid }
{}
