//! The kinds of what the definitions of a text declare.
ghost use Rattle.std.specs.Prelude.{◌≡◌, map, option_map, IfOk};
ghost use Rattle.c_tree.specs.Bare.{bare_def, bare_binding};
ghost use Rattle.c_semantics.specs.Names.{struct_name};
ghost use Rattle.c_semantics.specs.Texts.{global_type, result_type, members_of, bound_type};
ghost use Rattle.resolved_tree.specs.Nodes.{word};
ghost use Rattle.name_resolution.specs.Known.{known_of};
ghost use Rattle.tree_code.specs.Code.{kind_of_type};
ghost use Rattle.expr_gen.specs.Scope.{trees_of, look_of};

use crate::context::Context;
use crate::kinds::{INT, kind_of_declared};
use bytecode::ValueKind;
use c_definitions::Known;
use c_tree::{Binding, Def, DefKind};
use name_resolution::name_of_struct;
use resolved_tree::Word;
use std::alloc::AllocError;

/// The definition of a name; a struct's is `struct` with its tag after a blank.
fn definition<'a>(known: &Known<'a>, name: &str) -> Option<&'a Def>
    ensures { option_map (λ d. bare_def d.now) result ≡ known_of known.now name.now }
{
    known.declared(name)
}

/// The kind of a global variable or of an array's elements; where there is none it is that of `int`.
pub(crate) fn global_kind(known: &Known, name: &str) -> ValueKind
    ensures { result ≡ kind_of_type (global_type (known_of known.now name.now)) }
{
    let Some(definition) = definition(known, name) else {
        return INT;
    };
    match &definition.kind {
        DefKind::Global(declaration) => kind_of_declared(&declaration.declared),
        DefKind::Array(array) => kind_of_declared(&array.element),
        _ => INT,
    }
}

/// The kind of a function's value; where it has none it is that of `int`.
pub(crate) fn result_kind(known: &Known, name: &str) -> ValueKind
    ensures { result ≡ kind_of_type (result_type (known_of known.now name.now)) }
{
    let Some(definition) = definition(known, name) else {
        return INT;
    };
    let DefKind::Function(function) = &definition.kind else {
        return INT;
    };
    match &function.result {
        Some(declared) => kind_of_declared(declared),
        None => INT,
    }
}

/// The fields of a struct.
fn members<'a>(known: &Known<'a>, name: &str) -> &'a [Binding]
    ensures { map bare_binding result.now ≡ members_of (known_of known.now name.now) }
{
    match definition(known, name) {
        Some(
            Def {
                kind: DefKind::Struct(_, members),
                ..
            },
        ) => members.as_slice(),
        _ => &[],
    }
}

/// The kind of what a name is declared as in a list.
fn bound_kind(bindings: &[Binding], name: &str) -> ValueKind
    ensures { result ≡ kind_of_type (bound_type (map bare_binding bindings.now) name.now) }
{
    for binding in bindings {
        if name == binding.name.text.as_str() {
            return kind_of_declared(&binding.declared);
        }
    }
    INT
}

/// The kind of a field of the struct with a tag.
pub(crate) fn field_kind(context: &Context, tag: Word, name: Word) -> Result<ValueKind, AllocError>
    ensures { let t = trees_of context.now in IfOk result (λ kind.
        kind ≡ kind_of_type (bound_type (members_of (look_of context.now (struct_name (word t tag)))) (word t name))) }
{
    let trees = context.trees;
    let key = name_of_struct(trees.allocator(), trees.text(tag))?;
    Ok(bound_kind(members(context.known, key.as_str()), trees.text(name)))
}
