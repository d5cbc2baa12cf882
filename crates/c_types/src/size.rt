ghost use Rattle.std.specs.Prelude.{◌≡◌, min, map, nat_le};
ghost use Rattle.c_types.specs.Definitions.{is_small, max_need};
ghost use Rattle.c_expr_types.specs.Need.{greatest, need, optional_need};

use crate::limits::{MOST_PARAMETERS, MOST_TOKENS, MOST_VARIABLES};
use crate::measure::{body_need, optional_need, variables};
use c_expr_types::{MOST_NEED, need};
use c_tree::{Expr, Function};

/// Whether the need of an expression that may be absent is within the limit.
pub(crate) fn is_light(expr: &Option<Expr>) -> bool
    ensures { result ≡ nat_le (optional_need expr.now) max_need }
{
    optional_need(expr) <= MOST_NEED
}

/// The greatest need of some expressions, or 65 where it is greater.
pub(crate) fn greatest_need(exprs: &[Expr]) -> u32
    ensures { result ≡ min (greatest (map need exprs.now)) 65 }
{
    let mut most = 0;
    let mut i = exprs.len();
    while i > 0 {
        i -= 1;
        most = need(&exprs[i]).max(most);
    }
    most
}

/// Whether a function is within its limits.
pub(crate) fn is_small(function: &Function) -> bool
    ensures { result ≡ is_small function.now }
{
    let parameters = function.parameters.as_slice().len();
    let body = function.body.as_slice();
    function.tokens <= MOST_TOKENS
        && parameters <= MOST_PARAMETERS
        && parameters + variables(body) as usize <= MOST_VARIABLES
        && body_need(body) <= MOST_NEED
}
