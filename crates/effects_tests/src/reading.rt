//! The points of the `main` of a text. What is owned on the way is owned by a function of its own, which lends it on.
use c_definitions::Known;
use c_front::read_text;
use c_tree::{DefKind, Function, Program};
use name_resolution::resolve_body;
use name_sets::Names;
use point_places::places_of;
use resolved_tree::Trees;
use skeleton_gen::{SkeletonFault, skeleton_of};
use skeletons::Skeleton;
use std::alloc::Global;
use std::test::Fail;

/// Line 1 has a global and a function, line 2 the `main` whose points are tested: a call with an argument, a loop, a
/// transaction and an update point.
static TEXT: &str = "int g; int f(int a) { return a + g; }\n\
    int main(void) { int x = (int) f(g); for (; x < 3; g++) g = x; dsu_tx { dsu_update(); } return 0; }";

/// The places of a function's points, and its skeleton by a table of names.
#[derive(Drop)]
pub(crate) struct Points {
    pub places: Vec<usize>,
    pub skeleton: Result<Skeleton, SkeletonFault>,
}

/// The points of the `main` of the text.
pub(crate) fn points_of(alloc: Global, names: &Names) -> Result<Points, Fail> {
    let Ok(typed) = read_text(alloc, TEXT.as_bytes()) else {
        return Err(Fail::new("the text has a fault"));
    };
    let points = of_program(alloc, names, typed.program());
    drop(typed);
    points
}

fn of_program(alloc: Global, names: &Names, program: &Program) -> Result<Points, Fail> {
    let known = Known::of(alloc, program.definitions.as_slice())?;
    let points = of_main(alloc, names, &known);
    drop(known);
    points
}

fn of_main(alloc: Global, names: &Names, known: &Known) -> Result<Points, Fail> {
    let Some(main) = known.definition_of("main") else {
        return Err(Fail::new("there is no main"));
    };
    let DefKind::Function(function) = &main.kind else {
        return Err(Fail::new("main is no function"));
    };
    let mut trees = Trees::new(alloc);
    let points = of_function(alloc, names, known, function, &mut trees);
    drop(trees);
    points
}

fn of_function(
    alloc: Global,
    names: &Names,
    known: &Known,
    function: &Function,
    trees: &mut Trees,
) -> Result<Points, Fail> {
    let body = resolve_body(trees, known, function)?;
    Ok(Points {
        places: places_of(alloc, trees, body, function)?,
        skeleton: skeleton_of(alloc, trees, body, names),
    })
}
