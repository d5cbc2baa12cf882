ghost use Rattle.std.specs.Prelude.{◌≡◌, ◌≤◌, ◌+◌, map, max, min};
ghost use Rattle.c_expr_types.specs.Need.{call_need, in_turn, need};

use c_tree::{Expr, ExprNode as Node};
use dsu_io::{Boxed, List};

/// The greatest operand need that an expression may have.
pub const MOST_NEED: u32 = 64;

/// More than any need that is allowed; greater needs aren't told apart.
const TOO_MUCH: u32 = MOST_NEED + 1;

/// A need and so many more.
fn and_more(need: u32, more: u32) -> u32
    requires need { need ≤ 65 }
    requires more { more ≤ 2 }
    ensures { result ≡ min (need + more) 65 }
{
    (need + more).min(TOO_MUCH)
}

/// Of two operands, of which the first is kept.
fn operand_need(a: u32, b: u32) -> u32
    requires { b ≤ 65 }
    ensures { result ≡ max a (min (b + 1) 65) }
{
    a.max(and_more(b, 1))
}

/// Of a place and what is written to it.
fn assignment_need(a: u32, b: u32) -> u32
    requires a { a ≤ 65 }
    requires b { b ≤ 65 }
    ensures { result ≡ min (max a b + 2) 65 }
{
    and_more(a.max(b), 2)
}

/// Of a call with two arguments.
fn two_argument_call_need(a: u32, b: u32) -> u32
    requires { b ≤ 65 }
    ensures { result ≡ max a (min (max b 1 + 1) 65) }
{
    operand_need(a, b.max(1))
}

/// The operand need of an expression, or 65 where it is greater.
#[cycle(need)]
pub fn need(expr: &Expr) -> u32
    ensures { result ≡ min (need expr.now) 65 }
{
    match &expr.node {
        Node::Unary(_, a) => part(a),
        Node::Step(_, a) => and_more(part(a), 2),
        Node::Cast(_, a) => part(a),
        Node::Binary(_, a, b) => operand_need(part(a), part(b)),
        Node::And(a, b) => part(a).max(part(b)),
        Node::Or(a, b) => part(a).max(part(b)),
        Node::Choice(a, b, c) => part(a).max(part(b).max(part(c))),
        Node::Assign(a, b) => assignment_need(part(a), part(b)),
        Node::Update(_, a, b) => assignment_need(part(a), part(b)),
        Node::Call(_, list) => call_need_of(list),
        Node::Element(_, a) => part(a),
        Node::Arrow(a, _) => part(a),
        Node::Dot(a, _) => part(a),
        Node::Print { arguments, .. } => call_need_of(arguments),
        Node::Free(a) => part(a).max(1),
        Node::Create(a, _, b) => two_argument_call_need(part(a), part(b)),
        Node::Join(a) => part(a).max(1),
        Node::JoinInto(a, b) => two_argument_call_need(part(a), part(b)),
        Node::Number(_) | Node::Character(_) | Node::Null | Node::Success | Node::Error => 1,
        Node::Variable(_) | Node::Calloc(_) => 1,
        Node::InitMutex(_) | Node::Lock(_) | Node::Unlock(_) => 1,
    }
}

#[cycle(need)]
fn part(a: &Boxed<Expr>) -> u32
    ensures { result ≡ min (need a.now) 65 }
{
    need(a.get())
}

/// Of a call, by its arguments.
#[cycle(need)]
fn call_need_of(arguments: &List<Expr>) -> u32
    ensures { result ≡ min (call_need (map need arguments.now)) 65 }
{
    in_turn(arguments.as_slice()).max(1)
}

/// Of expressions that are computed one after another and kept.
#[cycle(need)]
fn in_turn(exprs: &[Expr]) -> u32
    ensures { result ≡ min (in_turn (map need exprs.now)) 65 }
{
    let mut most = 0;
    let mut i = exprs.len();
    while i > 0 {
        i -= 1;
        most = need(&exprs[i]).max(and_more(most, 1));
    }
    most
}
