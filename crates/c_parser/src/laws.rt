ghost use Rattle.c_expr_parser.specs.Laws.{OneProgram, ProgramDepth};

/// At most one program is read from a list of tokens, and in one way.
pub fn one_program()
    ensures { OneProgram }
{}

/// The depth of a token of a text depends on the tokens up to it alone.
pub fn program_depth()
    ensures { ProgramDepth }
{}
