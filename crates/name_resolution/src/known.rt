//! What names mean: by the definitions of a text, and as local variables.
ghost use Rattle.std.specs.Prelude.{◌≡◌, map, option_map, IfOk, string_bytes};
ghost use Rattle.std.specs.Option.{option_map_or};
ghost use Rattle.c_tree.specs.Bare.{bare_type, bare_def, bare_binding};
ghost use Rattle.c_semantics.specs.Names.{struct_name};
ghost use Rattle.c_semantics.specs.Texts.{int, global_type, result_type, parameters_of, members_of, bound};
ghost use Rattle.name_resolution.specs.Known.{known_of, locals_of};

use c_definitions::Known;
use c_tree::{Binding, CType, Def, DefKind};
use std::alloc::{AllocError, Global};

/// A local variable, by the tree that declares it.
#[derive(Clone, Copy)]
pub(crate) struct Local<'a> {
    pub declared: &'a CType,
    pub name: &'a str,
}

/// The definition of a name; a struct's is `struct` with its tag after a blank.
fn definition<'a>(known: &Known<'a>, name: &str) -> Option<&'a Def>
    ensures { option_map (λ d. bare_def d.now) result ≡ known_of known.now name.now }
{
    known.declared(name)
}

/// The type of a global variable or of an array's elements; where there is none it is `int`.
pub(crate) fn global_type<'a>(known: &Known<'a>, name: &str) -> Option<&'a CType>
    ensures { option_map_or (λ type. bare_type type.now) result int ≡ global_type (known_of known.now name.now) }
{
    match &definition(known, name)?.kind {
        DefKind::Global(declaration) => Some(&declaration.declared),
        DefKind::Array(array) => Some(&array.element),
        _ => None,
    }
}

/// The type of a function's value; where there is none it is `int`.
pub(crate) fn result_type<'a>(known: &Known<'a>, name: &str) -> Option<&'a CType>
    ensures { option_map_or (λ type. bare_type type.now) result int ≡ result_type (known_of known.now name.now) }
{
    match &definition(known, name)?.kind {
        DefKind::Function(function) => function.result.as_ref(),
        _ => None,
    }
}

/// The parameters of a function.
pub(crate) fn parameters<'a>(known: &Known<'a>, name: &str) -> &'a [Binding]
    ensures { map bare_binding result.now ≡ parameters_of (known_of known.now name.now) }
{
    match definition(known, name) {
        Some(
            Def {
                kind: DefKind::Function(function),
                ..
            },
        ) => function.parameters.as_slice(),
        _ => &[],
    }
}

/// The fields of a struct.
pub(crate) fn members<'a>(known: &Known<'a>, name: &str) -> &'a [Binding]
    ensures { map bare_binding result.now ≡ members_of (known_of known.now name.now) }
{
    match definition(known, name) {
        Some(
            Def {
                kind: DefKind::Struct(_, members),
                ..
            },
        ) => members.as_slice(),
        _ => &[],
    }
}

/// The name of the struct with a tag.
pub fn name_of_struct(alloc: Global, tag: &str) -> Result<String, AllocError>
    ensures { IfOk result (λ name. string_bytes name ≡ struct_name tag.now) }
{
    let mut name = String::from_str(alloc, "struct ")?;
    name.push_str(tag)?;
    Ok(name)
}

/// What a name is declared as in a list.
pub(crate) fn bound_in<'a>(bindings: &'a [Binding], name: &str) -> Option<&'a CType>
    ensures { option_map (λ type. bare_type type.now) result
        ≡ option_map (λ b. b.declared) (bound (map bare_binding bindings.now) name.now) }
{
    for binding in bindings {
        if name == binding.name.text.as_str() {
            return Some(&binding.declared);
        }
    }
    None
}

/// What a name is declared as among the local variables, the innermost first.
pub(crate) fn local_type<'a>(locals: &[Local<'a>], name: &str) -> Option<&'a CType>
    ensures { option_map (λ type. bare_type type.now) result
        ≡ option_map (λ b. b.declared) (bound (locals_of locals.now) name.now) }
{
    match locals.split_last() {
        Some((last, outer)) => {
            if name == last.name {
                Some(last.declared)
            } else {
                local_type(outer, name)
            }
        }
        None => None,
    }
}
