//! What a text defines, in its order, with the trees of its functions in the table.
ghost use Rattle.std.specs.Prelude.{◌≡◌, [], IfOk, IfSome, Some, map};
ghost use Rattle.c_ints.specs.declared.kind.Kind.TheVariants.{I32};
ghost use Rattle.c_tree.specs.Bare.{bare_binding, bare_def, bare_function};
ghost use Rattle.c_tree.specs.BareDef.{Struct};
ghost use Rattle.c_tree.specs.BareExpr.{Bytes};
ghost use Rattle.c_semantics.specs.Resolved.{NoStatements};
ghost use Rattle.c_semantics.specs.Texts.{Definitions, definition, names, result_type};
ghost use Rattle.resolved_tree.specs.declared.node.ValueType.TheVariants.{Integer};
ghost use Rattle.resolved_tree.specs.Nodes.{Table, statements_at, type_of};
ghost use Rattle.name_resolution.specs.Found.{Grows};
ghost use Rattle.name_resolution.specs.Known.{known_of};
ghost use Rattle.resolved_tree.specs.Trees.{table};
ghost use Rattle.source_programs.specs.Definitions.{AreDefinitions, Defines, DefinesIf, HaveTrees, IsDefinition, IsPlain, binding_of, bindings_of, kept, names_in};

use crate::definition::{Binding, Definition};
use c_definitions::Known;
use c_ints::Kind;
use c_tree::{Binding as Declared, Def, DefKind, Function};
use name_resolution::{name_of_struct, resolve_body, statements, value_type, word};
use resolved_tree::{StatementsNode, Trees, ValueType, Word};
use std::alloc::{AllocError, Global};

/// What is defined in a text, in its order; its functions' trees are added to the table.
pub(crate) fn definitions_of(
    alloc: Global,
    trees: &mut Trees,
    text: &[Def],
) -> Result<Vec<Definition>, AllocError>
    ensures definitions { IfOk result (λ ds. (u : Table) → Grows (table trees.new) u → AreDefinitions u (map bare_def text.now) ds.items) }
    ensures trees { IfOk result (λ ds. (u : Table) → Grows (table trees.new) u → HaveTrees u (map bare_def text.now) ds.items) }
    ensures names { IfOk result (λ ds. (u : Table) → Grows (table trees.new) u → names_in u ds.items ≡ names (map bare_def text.now)) }
    ensures grows { Grows (table trees.old) (table trees.new) }
{
    let known = Known::of(alloc, text)?;
    known_definitions(alloc, trees, &known, text)
}

/// The same, where the text's definitions are known: the tables of them are borrowed, not owned, over the loop.
fn known_definitions(
    alloc: Global,
    trees: &mut Trees,
    known: &Known,
    text: &[Def],
) -> Result<Vec<Definition>, AllocError>
    ensures definitions { IfOk result (λ ds. (u : Table) → Grows (table trees.new) u → (name : Bytes)
        → IsDefinition u (known_of known.now) (kept u ds.items name) (definition (map bare_def text.now) name)) }
    ensures trees { IfOk result (λ ds. (u : Table) → Grows (table trees.new) u → HaveTrees u (map bare_def text.now) ds.items) }
    ensures names { IfOk result (λ ds. (u : Table) → Grows (table trees.new) u → names_in u ds.items ≡ names (map bare_def text.now)) }
    ensures grows { Grows (table trees.old) (table trees.new) }
{
    let mut definitions = Vec::new(alloc);
    for (place, definition) in text.iter().enumerate() {
        if let Some(made) = definition_of(alloc, trees, known, definition, place)? {
            definitions.push(made)?;
        }
    }
    Ok(definitions)
}

/// What a definition defines, if it defines a name.
fn definition_of(
    alloc: Global,
    trees: &mut Trees,
    known: &Known,
    definition: &Def,
    place: usize,
) -> Result<Option<Definition>, AllocError>
    ensures made { IfOk result (λ made. (u : Table) → Grows (table trees.new) u
        → DefinesIf u (known_of known.now) made (bare_def definition.now)) }
    ensures place { IfOk result (λ made. IfSome made (λ d. d.place ≡ place)) }
    ensures grows { Grows (table trees.old) (table trees.new) }
{
    match &definition.kind {
        DefKind::Function(function) => {
            let made = function_of(alloc, trees, known, function, place)?;
            Ok(Some(made))
        }
        DefKind::Struct(tag, members) => {
            let made = struct_of(alloc, trees, tag.text.as_str(), members.as_slice(), place)?;
            Ok(Some(made))
        }
        DefKind::Mutex(name) => {
            let made = plain(alloc, trees, name.text.as_str(), place)?;
            Ok(Some(made))
        }
        DefKind::Global(declaration) => {
            let made = plain(alloc, trees, declaration.name.text.as_str(), place)?;
            Ok(Some(made))
        }
        DefKind::Array(array) => {
            let made = plain(alloc, trees, array.name.text.as_str(), place)?;
            Ok(Some(made))
        }
        DefKind::Forward(_)
        | DefKind::Prototype(_)
        | DefKind::TransformStruct(_)
        | DefKind::TransformGlobal(_, _) => Ok(None),
    }
}

/// A function.
fn function_of(
    alloc: Global,
    trees: &mut Trees,
    known: &Known,
    function: &Function,
    place: usize,
) -> Result<Definition, AllocError>
    ensures made { IfOk result (λ made. (u : Table) → Grows (table trees.new) u
        → Defines u (known_of known.now) made (bare_function function.now)) }
    ensures place { IfOk result (λ made. made.place ≡ place) }
    ensures grows { Grows (table trees.old) (table trees.new) }
{
    let body = resolve_body(trees, known, function)?;
    let name = word(trees, function.name.text.as_str())?;
    let parameters = bindings(alloc, trees, function.parameters.as_slice())?;
    let result = returned(trees, function)?;
    Ok(Definition {
        name,
        place,
        parameters,
        body,
        result,
        members: Vec::new(alloc),
    })
}

/// The type of a function's value, which is `int` where it has none.
fn returned(trees: &mut Trees, function: &Function) -> Result<ValueType, AllocError>
    ensures declared { IfOk result (λ r. (u : Table) → Grows (table trees.new) u
        → type_of u r ≡ result_type (Some (bare_function function.now))) }
    ensures grows { Grows (table trees.old) (table trees.new) }
{
    match &function.result {
        Some(declared) => value_type(trees, declared),
        None => Ok(ValueType::Integer(Kind::I32)),
    }
}

/// A struct with a tag.
fn struct_of(
    alloc: Global,
    trees: &mut Trees,
    tag: &str,
    members: &[Declared],
    place: usize,
) -> Result<Definition, AllocError>
    ensures made { IfOk result (λ made. (u : Table) → Grows (table trees.new) u
        → (look : Definitions) → Defines u look made (Struct tag.now (map bare_binding members.now))) }
    ensures place { IfOk result (λ made. made.place ≡ place) }
    ensures grows { Grows (table trees.old) (table trees.new) }
{
    let name = name_of_struct(alloc, tag)?;
    let name = word(trees, name.as_str())?;
    let members = bindings(alloc, trees, members)?;
    without_body(alloc, trees, name, members, place)
}

/// What is defined and is neither a function nor a struct.
fn plain(
    alloc: Global,
    trees: &mut Trees,
    name: &str,
    place: usize,
) -> Result<Definition, AllocError>
    ensures made { IfOk result (λ made. (u : Table) → Grows (table trees.new) u → IsPlain u made name.now) }
    ensures place { IfOk result (λ made. made.place ≡ place) }
    ensures grows { Grows (table trees.old) (table trees.new) }
{
    let name = word(trees, name)?;
    without_body(alloc, trees, name, Vec::new(alloc), place)
}

/// What is defined and is no function.
fn without_body(
    alloc: Global,
    trees: &mut Trees,
    name: Word,
    members: Vec<Binding>,
    place: usize,
) -> Result<Definition, AllocError>
    ensures name { IfOk result (λ made. made.name ≡ name) }
    ensures place { IfOk result (λ made. made.place ≡ place) }
    ensures parameters { IfOk result (λ made. made.parameters.items ≡ []) }
    ensures body { IfOk result (λ made. (u : Table) → Grows (table trees.new) u → statements_at u made.body ≡ NoStatements) }
    ensures result { IfOk result (λ made. made.result ≡ Integer I32) }
    ensures members { IfOk result (λ made. made.members.items ≡ members.items) }
    ensures grows { Grows (table trees.old) (table trees.new) }
{
    let body = statements(trees, StatementsNode::None)?;
    Ok(Definition {
        name,
        place,
        parameters: Vec::new(alloc),
        body,
        result: ValueType::Integer(Kind::I32),
        members,
    })
}

/// Parameters or fields.
fn bindings(
    alloc: Global,
    trees: &mut Trees,
    declared: &[Declared],
) -> Result<Vec<Binding>, AllocError>
    ensures bindings { IfOk result (λ bs. (u : Table) → Grows (table trees.new) u → bindings_of u bs.items ≡ map bare_binding declared.now) }
    ensures grows { Grows (table trees.old) (table trees.new) }
{
    let mut bindings = Vec::with_capacity(alloc, declared.len())?;
    for one in declared {
        let binding = declared_binding(trees, one)?;
        bindings.push(binding)?;
    }
    Ok(bindings)
}

/// A parameter or a field.
fn declared_binding(trees: &mut Trees, declared: &Declared) -> Result<Binding, AllocError>
    ensures binding { IfOk result (λ b. (u : Table) → Grows (table trees.new) u → binding_of u b ≡ bare_binding declared.now) }
    ensures grows { Grows (table trees.old) (table trees.new) }
{
    let name = word(trees, declared.name.text.as_str())?;
    let declared = value_type(trees, &declared.declared)?;
    Ok(Binding { name, declared })
}
