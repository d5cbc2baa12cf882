//! The bodies of a program's functions.
ghost use Rattle.std.specs.Prelude.{◌≡◌, [], ◌∷◌, ◌++◌, List, length, map, Contains, IfOk, OnOk, option_copied};
ghost use Rattle.name_sets.specs.Texts.{IsTable};
ghost use Rattle.c_tree.specs.Bare.{bare_def, bare_function};
ghost use Rattle.c_tree.specs.declared.def.Function.{Function as FunctionTree};
ghost use Rattle.c_semantics.specs.Texts.{definition};
ghost use Rattle.c_semantics.specs.SourceTexts.{Text, text_of};
ghost use Rattle.name_resolution.specs.Known.{known_of};
ghost use Rattle.brought_bodies.specs.Unknown.{HasUnknownFunction, IsUnknownIn};
ghost use Rattle.check_in_places.specs.CheckIns.{function_of, functions, functions_in};
ghost use Rattle.check_in_places.specs.Bodies.{IsOutline, AreBodiesOf};

use crate::section::{Bodies, Outline};
use crate::spots::section_of;
use c_definitions::Known;
use c_semantics::each_point_has_ways_and_a_place;
use c_tree::{Def, DefKind, Function, Program};
use effect_flow::Flow;
use name_resolution::resolve_body;
use name_sets::Names;
use point_places::places_of;
use resolved_tree::Trees;
use skeleton_gen::{SkeletonFault, skeleton_of};
use std::alloc::{AllocError, Global};

/// The bodies of the functions of a program, in the order of its text, by a table that has each function and each name that one
/// uses.
pub fn bodies_of(alloc: Global, program: &Program, names: &Names) -> Result<Bodies, AllocError>
    requires table { IsTable names.now }
    requires known { ¬ HasUnknownFunction names.now (map bare_def program.now.definitions) }
    ensures { IfOk result (λ bodies. AreBodiesOf names.now (text_of program.now) (functions program.now)
        bodies.flow bodies.sections.items) }
{
    let definitions = program.definitions.as_slice();
    let known = Known::of(alloc, definitions)?;
    bodies_among(alloc, &known, names, definitions)
}

/// The bodies of the functions that some definitions define.
fn bodies_among(
    alloc: Global,
    known: &Known,
    names: &Names,
    definitions: &[Def],
) -> Result<Bodies, AllocError>
    requires table { IsTable names.now }
    requires whole { known.now ≡ definitions.now }
    requires known { ¬ HasUnknownFunction names.now (map bare_def definitions.now) }
    ensures { (text : Text) → known_of known.now ≡ definition text.definitions
        → IfOk result (λ bodies. AreBodiesOf names.now text (functions_in definitions.now)
        bodies.flow bodies.sections.items) }
{
    let mut bodies = Bodies {
        flow: Flow::new(alloc),
        sections: Vec::new(alloc),
    };
    for one in definitions {
        add_definition(alloc, known, names, one, &mut bodies)?;
    }
    Ok(bodies)
}

/// Adds the body of a definition, if it is a function.
fn add_definition(
    alloc: Global,
    known: &Known,
    names: &Names,
    added: &Def,
    bodies: &mut Bodies,
) -> Result<(), AllocError>
    requires { ¬ IsUnknownIn names.now (known_of known.now) (bare_def added.now) }
    ensures { (text : Text) (done : List FunctionTree) → known_of known.now ≡ definition text.definitions
        → AreBodiesOf names.now text done bodies.old.flow bodies.old.sections.items
        → OnOk result (AreBodiesOf names.now text (done ++ functions_in (added.now ∷ []))
        bodies.new.flow bodies.new.sections.items) }
{
    match function_in(&added.kind) {
        Some(function) => add_function(alloc, known, names, function, bodies),
        None => Ok(()),
    }
}

/// The function that a definition defines, if it defines one.
fn function_in(kind: &DefKind) -> Option<&Function>
    ensures { option_copied result ≡ function_of kind.now }
{
    match kind {
        DefKind::Function(function) => Some(function),
        DefKind::Struct(_, _)
        | DefKind::Forward(_)
        | DefKind::Mutex(_)
        | DefKind::Prototype(_)
        | DefKind::Global(_)
        | DefKind::Array(_)
        | DefKind::TransformStruct(_)
        | DefKind::TransformGlobal(_, _) => None,
    }
}

/// Adds the body of a function.
fn add_function(
    alloc: Global,
    known: &Known,
    names: &Names,
    function: &Function,
    bodies: &mut Bodies,
) -> Result<(), AllocError>
    requires { ¬ IsUnknownIn names.now (known_of known.now) (bare_function function.now) }
    ensures { (text : Text) (done : List FunctionTree) → known_of known.now ≡ definition text.definitions
        → AreBodiesOf names.now text done bodies.old.flow bodies.old.sections.items
        → OnOk result (AreBodiesOf names.now text (done ++ function.now ∷ [])
        bodies.new.flow bodies.new.sections.items) }
{
    let outline = outline_of(alloc, known, names, function)?;
    add_outline(alloc, names, function, &outline, bodies)
}

/// The skeleton and the places of a function, of which each point has one.
fn outline_of(
    alloc: Global,
    known: &Known,
    names: &Names,
    function: &Function,
) -> Result<Outline, AllocError>
    requires { ¬ IsUnknownIn names.now (known_of known.now) (bare_function function.now) }
    ensures outline { IfOk result (λ outline. IsOutline names.now (known_of known.now) function.now outline) }
    ensures places { IfOk result (λ outline. length outline.places.items ≡ length outline.skeleton.points.items) }
{
    each_point_has_ways_and_a_place();
    let mut trees = Trees::new(alloc);
    let body = resolve_body(&mut trees, known, function)?;
    let places = places_of(alloc, &trees, body, function)?;
    match skeleton_of(alloc, &trees, body, names) {
        Ok(skeleton) => Ok(Outline { skeleton, places }),
        Err(SkeletonFault::Memory) => Err(AllocError),
        // The table has each name.
        Err(SkeletonFault::Unknown) => unreachable!(),
    }
}

/// Adds a function by its skeleton and its places.
fn add_outline(
    alloc: Global,
    names: &Names,
    function: &Function,
    outline: &Outline,
    bodies: &mut Bodies,
) -> Result<(), AllocError>
    requires there { ¬ (¬ Contains names.now function.now.name.text) }
    requires places { length outline.now.places.items ≡ length outline.now.skeleton.points.items }
    ensures { (text : Text) (done : List FunctionTree)
        → IsOutline names.now (definition text.definitions) function.now outline.now
        → AreBodiesOf names.now text done bodies.old.flow bodies.old.sections.items
        → OnOk result (AreBodiesOf names.now text (done ++ function.now ∷ [])
        bodies.new.flow bodies.new.sections.items) }
{
    let Some(id) = names.find(function.name.text.as_str()) else {
        unreachable!()
    };
    let first = bodies.flow.points().len();
    let skeleton = &outline.skeleton;
    let section = section_of(alloc, id, first, skeleton, outline.places.as_slice())?;
    bodies.sections.push(section)?;
    bodies.flow.add(id, 1, skeleton)
}
