//! What the machines' code and frames rest on, of each program that an accepted source is lowered to.
ghost use Rattle.ec_compile.specs.Laws.{CodeHasLimits, EachOperationIsShort, ProgramIsShort};

/// An operation's steps, by its nodes, its variables and what the object constructors in it capture.
pub fn each_operation_is_short()
    ensures { EachOperationIsShort }
{}

/// Those of the program's own operation.
pub fn program_is_short()
    ensures { ProgramIsShort }
{}

/// Columns of variables, steps, fields, parameters, constants and literals are within the limits of code.
pub fn code_has_limits()
    ensures { CodeHasLimits }
{}
