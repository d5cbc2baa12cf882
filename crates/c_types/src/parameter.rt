ghost use Rattle.std.specs.Prelude.{◌≡◌, ◌++◌, ◌&&◌, [], ◌∷◌, IfOk, OnOk, not, option_map};
ghost use Rattle.std.specs.List.{flat_map};
ghost use Rattle.c_expr_types.specs.declared.fault.TypeKind.TheVariants.{DeclaredTwice};
ghost use Rattle.c_types.specs.Definitions.{agrees, bindings, parameter_types, parameters, result_faults, same_result, same_types, with_parameters};
ghost use Rattle.c_expr_types.specs.Expressions.{unknown_tag};
ghost use Rattle.c_expr_types.specs.Faults.{first, unless};
ghost use Rattle.c_expr_types.specs.Found.{same_type};
ghost use Rattle.c_definitions.specs.Lookup.{declare, is_repeated, types_of};
ghost use Rattle.c_definitions.specs.Views.{meaning_seen};

use crate::statement::declare_variable;
use c_definitions::{Known, Meaning};
use c_expr_types::{Fault, TypeKind, same, sooner, unknown_tag, unless};
use c_scope::Scopes;
use c_tree::{Binding, CType, Parameters};
use std::alloc::{AllocError, Global};

/// Adds a name with a type to the innermost block, unless that has one of its name; tells what is wrong with it.
#[tactic(auto, using(c_expr_types::proofs::Firsts::first_append))]
fn bind_one(
    known: &Known,
    scopes: &mut Scopes<CType>,
    binding: &Binding,
) -> Result<Option<Fault>, AllocError>
    ensures fault { IfOk result (λ fault. fault ≡ first (unknown_tag known.now binding.now.declared
        ++ unless (not (is_repeated binding.now.name.text scopes.old)) DeclaredTwice binding.now.name.place)) }
    ensures scopes { OnOk result (scopes.new ≡ declare binding.now.name.text binding.now.declared scopes.old) }
{
    let is_new = declare_variable(scopes, binding.name.text.as_str(), binding.declared.copy()?)?;
    Ok(sooner(
        unknown_tag(known, &binding.declared),
        unless(is_new, TypeKind::DeclaredTwice, binding.name.place),
    ))
}

/// Adds names with types to a block that has none; tells what is wrong with them.
pub(crate) fn bind(
    known: &Known,
    scopes: &mut Scopes<CType>,
    list: &[Binding],
) -> Result<Option<Fault>, AllocError>
    requires { scopes.old ≡ [] ∷ [] }
    ensures fault { IfOk result (λ fault. fault ≡ first (bindings known.now [] list.now)) }
    ensures scopes { OnOk result (scopes.new ≡ with_parameters list.now ([] ∷ [])) }
{
    let mut fault = None;
    for binding in list {
        fault = sooner(fault, bind_one(known, scopes, binding)?);
    }
    Ok(fault)
}

/// What is wrong with names with types that are in no block.
pub(crate) fn bindings_fault(
    alloc: Global,
    known: &Known,
    list: &[Binding],
) -> Result<Option<Fault>, AllocError>
    ensures { IfOk result (λ fault. fault ≡ first (bindings known.now [] list.now)) }
{
    let mut scopes = Scopes::new(alloc);
    bind(known, &mut scopes, list)
}

/// What is wrong with types by themselves.
fn types_fault(known: &Known, types: &[CType]) -> Option<Fault>
    ensures { result ≡ first (flat_map (unknown_tag known.now) types.now) }
{
    let mut fault = None;
    for declared in types {
        fault = sooner(fault, unknown_tag(known, declared));
    }
    fault
}

/// What is wrong between the parentheses of a prototype.
pub(crate) fn parameters(
    alloc: Global,
    known: &Known,
    listed: &Parameters,
) -> Result<Option<Fault>, AllocError>
    ensures { IfOk result (λ fault. fault ≡ first (parameters known.now listed.now)) }
{
    match listed {
        Parameters::Named(bindings) => bindings_fault(alloc, known, bindings.as_slice()),
        Parameters::Unnamed(types) => Ok(types_fault(known, types.as_slice())),
    }
}

/// What is wrong with the type of a result.
pub(crate) fn result_fault(known: &Known, declared: &Option<CType>) -> Option<Fault>
    ensures { result ≡ first (result_faults known.now declared.now) }
{
    match declared {
        Some(declared) => unknown_tag(known, declared),
        None => None,
    }
}

/// Whether two results are of one type.
fn same_result(a: &Option<CType>, b: &Option<CType>) -> bool
    ensures { result ≡ same_result a.now b.now }
{
    match (a, b) {
        (Some(a), Some(b)) => same(a, b),
        (None, None) => true,
        _ => false,
    }
}

/// Whether two types are one, and so are others.
fn same_and(a: &CType, b: &CType, others: bool) -> bool
    ensures { result ≡ (same_type a.now b.now && others) }
{
    same(a, b) && others
}

/// Whether parameters have these types.
fn have_types(parameters: &[Binding], types: &[CType]) -> bool
    ensures { result ≡ same_types (types_of parameters.now) types.now }
{
    if parameters.len() != types.len() {
        return false;
    }
    let mut i = types.len();
    let mut are_same = true;
    while i > 0 {
        i -= 1;
        are_same = same_and(&parameters[i].declared, &types[i], are_same);
    }
    are_same
}

/// Whether the types of two lists of parameters are the same.
fn same_parameters(a: &[Binding], b: &[Binding]) -> bool
    ensures { result ≡ same_types (types_of a.now) (types_of b.now) }
{
    if a.len() != b.len() {
        return false;
    }
    let mut i = a.len();
    let mut are_same = true;
    while i > 0 {
        i -= 1;
        are_same = same_and(&a[i].declared, &b[i].declared, are_same);
    }
    are_same
}

/// Whether a name stands for a function of a type.
pub(crate) fn agrees(
    meaning: &Option<Meaning>,
    declared: &Option<CType>,
    parameters: &Parameters,
) -> bool
    ensures { result ≡ agrees (option_map meaning_seen meaning.now) declared.now (parameter_types parameters.now) }
{
    let Some(Meaning::Function(function)) = meaning else {
        return false;
    };
    let own = function.parameters.as_slice();
    let are_same = match parameters {
        Parameters::Named(bindings) => same_parameters(own, bindings.as_slice()),
        Parameters::Unnamed(types) => have_types(own, types.as_slice()),
    };
    same_result(&function.result, declared) && are_same
}
