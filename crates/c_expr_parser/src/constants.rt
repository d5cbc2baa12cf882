ghost use Rattle.std.specs.Prelude.{◌≡◌, ◌&&◌};
ghost use Rattle.c_expr_parser.specs.Tables.{constant_of};

use c_ints::{Int, literal};

/// The integer that a number writes, where one of its types holds it (C11 6.4.4.1).
pub fn constant(text: &str) -> Option<Int>
    ensures { result ≡ constant_of text.now }
{
    literal(text).ok()
}
