//! What the operators expect of their operands.
use crate::calls::say_call;
use crate::draft::Draft;
use crate::found::{is_tested, say_both, say_converted, say_found};
use crate::words::{binary_word, say_type, step_word, unary_word};
use c_definitions::{Names, Position};
use c_expr_types::{Found, infer, is_safe};
use c_ints::{BinOp, UnOp};
use c_tree::{CType, Expr, ExprNode as Node};
use dsu_io::Boxed;

/// Says what is wrong with an expression at a place, whose parts have no fault: what it expects of them and what was found, or
/// why it can't be where it is.
pub(crate) fn say_wrong(draft: &mut Draft, names: &Names, expr: &Expr, at: usize) {
    if is_excluded(names, expr) && expr.place == at {
        return draft.say(
            "an initialiser of a global has constants, casts, '?:' and operators that can't trap, and nothing else",
        );
    }
    match &expr.node {
        Node::Unary(op, a) => say_unary(draft, names, *op, a),
        Node::Step(op, a) => say_operand(draft, names, step_word(*op), a),
        Node::Cast(to, a) => say_cast(draft, names, to, a),
        Node::Binary(op, a, b) => say_binary(draft, names, *op, a, b),
        Node::And(a, b) => say_junction(draft, names, "&&", a, b),
        Node::Or(a, b) => say_junction(draft, names, "||", a, b),
        Node::Choice(a, b, c) => say_choice(draft, names, a, b, c),
        Node::Assign(a, b) => say_assigned(draft, names, a, b),
        Node::Update(op, a, b) => say_update(draft, names, *op, a, b),
        _ => say_call(draft, names, expr, at),
    }
}

/// Whether an expression is in an initialiser of a global and has a form that isn't allowed there.
fn is_excluded(names: &Names, expr: &Expr) -> bool {
    if matches!(names.position, Position::InFunction) {
        return false;
    }
    match &expr.node {
        Node::Number(_) | Node::Character(_) | Node::Null => false,
        Node::Unary(_, _) | Node::Cast(_, _) | Node::Choice(_, _, _) => false,
        Node::Binary(op, _, _) => !is_safe(*op),
        _ => true,
    }
}

/// Says which operator takes an integer, and what was found.
fn say_operand(draft: &mut Draft, names: &Names, word: &str, a: &Boxed<Expr>) {
    draft.word(word);
    draft.say(" takes an integer");
    say_found(draft, names, a.get());
}

fn say_unary(draft: &mut Draft, names: &Names, op: UnOp, a: &Boxed<Expr>) {
    if matches!(op, UnOp::Not) {
        draft.say("'!' takes an integer or a pointer");
        say_found(draft, names, a.get());
    } else {
        say_operand(draft, names, unary_word(op), a);
    }
}

fn say_cast(draft: &mut Draft, names: &Names, to: &CType, a: &Boxed<Expr>) {
    draft.say("a cast to ");
    say_type(draft, to);
    draft.say(match to {
        CType::Integer(_) => " takes an integer",
        CType::Handle(_) => " takes NULL or a value of that type",
        CType::Thread => " takes a value of that type",
    });
    say_found(draft, names, a.get());
}

fn say_binary(draft: &mut Draft, names: &Names, op: BinOp, a: &Boxed<Expr>, b: &Boxed<Expr>) {
    draft.word(binary_word(op));
    draft.say(match op {
        BinOp::Eq | BinOp::Ne => " takes two integers, or a pointer with NULL or one of its type",
        _ => " takes integers",
    });
    say_both(draft, names, a, b);
}

/// Of `&&` and `||`.
fn say_junction(draft: &mut Draft, names: &Names, word: &str, a: &Boxed<Expr>, b: &Boxed<Expr>) {
    draft.word(word);
    draft.say(" takes integers and pointers");
    say_both(draft, names, a, b);
}

fn say_choice(draft: &mut Draft, names: &Names, a: &Boxed<Expr>, b: &Boxed<Expr>, c: &Boxed<Expr>) {
    match is_tested(draft.alloc(), names, a.get()) {
        Ok(true) => {
            draft.say(
                "the results of '?:' are two integers, or a pointer and NULL or one of its type",
            );
            say_both(draft, names, b, c);
        }
        Ok(false) => {
            draft.say("a condition is an integer or a pointer");
            say_found(draft, names, a.get());
        }
        Err(_) => draft.cut(),
    }
}

/// Of `a = b`, where `a` is a place.
fn say_assigned(draft: &mut Draft, names: &Names, a: &Boxed<Expr>, b: &Boxed<Expr>) {
    match infer(draft.alloc(), names, a.get()) {
        Ok(to) => say_value_for(draft, names, &to.found, b.get()),
        Err(_) => draft.cut(),
    }
}

/// Says what was found in place of a value that a place of a type takes.
fn say_value_for(draft: &mut Draft, names: &Names, to: &Found, expr: &Expr) {
    match to {
        Found::Place(declared) => say_converted(draft, names, declared, expr),
        _ => {
            draft.say("expected a value");
            say_found(draft, names, expr);
        }
    }
}

/// Of `a += b` and the like.
fn say_update(draft: &mut Draft, names: &Names, op: BinOp, a: &Boxed<Expr>, b: &Boxed<Expr>) {
    draft.say("'");
    draft.say(binary_word(op));
    draft.say("=' takes integers");
    say_both(draft, names, a, b);
}
