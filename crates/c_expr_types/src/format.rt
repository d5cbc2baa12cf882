ghost use Rattle.std.specs.Prelude.{◌≡◌};
ghost use Rattle.c_expr_types.specs.Formats.{fits_format, is_promoted_to};

use crate::found::{Found, Part, same_kind};
use c_format::Reading;
use c_ints::Kind;
use c_tree::CType;

/// Whether an argument is an integer that is of a kind once it is promoted.
pub fn is_promoted_to(kind: Kind, argument: &Part) -> bool
    ensures { result ≡ is_promoted_to kind argument.now }
{
    argument.found.has_integer() && same_kind(argument.kind().promoted(), kind)
}

/// Whether a format fits its arguments.
pub fn fits_format(format: &[u8], arguments: &[Part]) -> bool
    ensures { result ≡ fits_format format.now arguments.now }
{
    let mut reading = Reading::Text;
    let mut used = 0;
    for i in 0..format.len() {
        if let Some(kind) = reading.taken(format[i]) {
            if used == arguments.len() || !is_promoted_to(kind, &arguments[used]) {
                return false;
            }
            used += 1;
        }
        reading = reading.read(format[i]);
    }
    matches!(reading, Reading::Text) && used == arguments.len()
}
