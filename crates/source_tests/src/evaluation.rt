//! Where a thread's private work stops, and with which values and variables.
use crate::checks::read;
use c_definitions::Known;
use c_ints::Int;
use c_tree::{Def, DefKind};
use local_evaluation::{Halt, Local, Piece, Stop, Value, Work, evaluate};
use name_resolution::resolve_body;
use resolved_tree::{NodeId, Trees};
use std::alloc::{AllocError, Global};
use std::test::Fail;

/// The number of the first point of a body.
const FIRST: u32 = 7;

/// Where work stops.
#[derive(Clone, Copy)]
enum At {
    /// At the print of one argument, the one value, at the first point.
    Print(i32),
    /// At a back edge, with these values of the two variables.
    Back(i32, i32),
    /// At a return, with these.
    Return(i32, i32),
}

/// The body of the `main` that is known.
fn body_of_main(trees: &mut Trees, known: &Known) -> Result<NodeId, Fail> {
    let Some(main) = known.definition_of("main") else {
        return Err(Fail::new("there is no main"));
    };
    let DefKind::Function(function) = &main.kind else {
        return Err(Fail::new("main is no function"));
    };
    Ok(resolve_body(trees, known, function)?)
}

/// That of these definitions.
fn body_in(alloc: Global, trees: &mut Trees, definitions: &[Def]) -> Result<NodeId, Fail> {
    let known = Known::of(alloc, definitions)?;
    let body = body_of_main(trees, &known);
    drop(known);
    body
}

/// That of a text.
fn body_in_text(alloc: Global, trees: &mut Trees, text: &str) -> Result<NodeId, Fail> {
    let typed = read(alloc, text)?;
    let body = body_in(alloc, trees, typed.program().definitions.as_slice());
    drop(typed);
    body
}

/// A body as work that is pending, in a scope of its own.
fn pending(alloc: Global, body: NodeId) -> Result<Work, AllocError> {
    let pieces = Vec::from_array(alloc, [Piece::Sequence(body, FIRST)])?;
    let scopes = Vec::from_array(alloc, [Local::Block])?;
    Ok(Work {
        pieces,
        values: Vec::new(alloc),
        scopes,
    })
}

/// Whether the one value is this.
fn has_value(work: &Work, value: i32) -> bool {
    match work.values.as_slice() {
        [Value::Number(Int::I32(only))] => *only == value,
        _ => false,
    }
}

/// Whether the variables are two with these values.
fn has_variables(work: &Work, first: i32, second: i32) -> bool {
    match work.scopes.as_slice() {
        [
            Local::Block,
            Local::Variable(_, Value::Number(Int::I32(x))),
            Local::Variable(_, Value::Number(Int::I32(y))),
        ] => *x == first && *y == second,
        _ => false,
    }
}

/// Whether work stops next at a place.
fn stops_at(trees: &Trees, work: &mut Work, place: At) -> Result<bool, AllocError> {
    let Halt::At(stop, point) = evaluate(trees, work)? else {
        return Ok(false);
    };
    Ok(match (stop, place) {
        (Stop::Print(format, 1), At::Print(value)) => {
            trees.text(format) == "%d" && point == FIRST && has_value(work, value)
        }
        (Stop::Back, At::Back(first, second)) | (Stop::Return, At::Return(first, second)) => {
            has_variables(work, first, second)
        }
        _ => false,
    })
}

/// Whether work stops at these places, one by one.
fn stops_at_all(trees: &Trees, work: &mut Work, places: &[At]) -> Result<bool, Fail> {
    for place in places {
        if !stops_at(trees, work, *place)? {
            return Ok(false);
        }
    }
    Ok(true)
}

/// Whether the work of a text's `main` does.
fn text_stops_at(
    alloc: Global,
    trees: &mut Trees,
    text: &str,
    places: &[At],
) -> Result<bool, Fail> {
    let body = body_in_text(alloc, trees, text)?;
    let mut work = pending(alloc, body)?;
    let stops = stops_at_all(trees, &mut work, places);
    drop(work);
    stops
}

/// Whether it does, with trees of its own.
fn stops(alloc: Global, text: &str, places: &[At]) -> Result<bool, Fail> {
    let mut trees = Trees::new(alloc);
    let stops = text_stops_at(alloc, &mut trees, text, places);
    drop(trees);
    stops
}

#[test]
fn arguments_are_evaluated_up_to_the_print(rt: HostRuntime) -> Result<(), Fail> {
    let text = r#"int main(void) { int y = 5; printf("%d", 1 + y * 2); return 0; }"#;
    assert!(rt; stops(rt.alloc(), text, &[At::Print(11)])?);
    Ok(())
}

#[test]
fn jumps_leave_nested_blocks(rt: HostRuntime) -> Result<(), Fail> {
    let text =
        "int main(void) { int x; int y; while (x < 5) { x = x + 1; { if (x == 2) continue; { if (x == 4) break; y = y + x; } } } return 0; }";
    let places = [
        At::Back(1, 1),
        At::Back(2, 1),
        At::Back(3, 4),
        At::Return(4, 4),
    ];
    assert!(rt; stops(rt.alloc(), text, &places)?);
    Ok(())
}
