ghost use Rattle.std.specs.Prelude.{◌≡◌, ◌&&◌, IfOk};
ghost use Rattle.c_expr_types.specs.declared.fault.TypeKind.TheVariants.{BadTransformer};
ghost use Rattle.c_types.specs.Definitions.{array_faults, forward_faults, function_faults, global_faults, global_transform_faults, kind_faults, mutex_faults, prototype_faults, struct_faults, struct_transform_faults};
ghost use Rattle.c_expr_types.specs.Faults.{first, unless};
ghost use Rattle.c_types.specs.Views.{before_seen};

use crate::context::Context;
use crate::initial::{initial, initialisers_fault, initialisers_of, is_small_array};
use crate::limits::MOST_FIELDS;
use crate::parameter::{agrees, bind, bindings_fault, parameters, result_fault};
use crate::size;
use crate::size::is_small;
use crate::statement::{Around, Loop, hiding};
use crate::struct_transformer::transforms_struct;
use crate::transformer::{are_light, is_global, is_light, is_transforming};
use crate::walk::statements;
use c_definitions::defined;
use c_expr_types::{Fault, TypeKind, sooner, unknown_tag, unless};
use c_scope::Scopes;
use c_tree::{
    Array, Binding, Declaration, DefKind, Expr, Function, Name, Prototype, StructTransform,
};
use dsu_io::List;
use std::alloc::{AllocError, Global};

/// What is wrong with `struct T { .. };`.
#[tactic(auto, using(c_expr_types::proofs::Firsts::first_append, crate::proofs::Hiding::first_hiding))]
fn struct_fault(
    alloc: Global,
    at: &Context,
    tag: &Name,
    members: &List<Binding>,
) -> Result<Option<Fault>, AllocError>
    ensures { IfOk result (λ fault. fault ≡ first (struct_faults at.now.known.now (before_seen at.now) at.now.definition.now tag.now members.now)) }
{
    let parts = bindings_fault(alloc, at.known, members.as_slice())?;
    let small = at.over_limit(members.as_slice().len() <= MOST_FIELDS);
    let own = sooner(at.tagged_twice(tag), sooner(small, at.many_names()));
    Ok(hiding(parts, own))
}

/// What is wrong with `struct T;`.
fn forward_fault(at: &Context, tag: &Name) -> Option<Fault>
    ensures { result ≡ first (forward_faults at.now.known.now at.now.definition.now tag.now) }
{
    let is_defined = at.known.members_of(tag.text.as_str()).is_some();
    unless(is_defined, TypeKind::WrongType, at.definition.place)
}

/// What is wrong with `mtx_t m;`.
fn mutex_fault(at: &Context, name: &Name) -> Option<Fault>
    ensures { result ≡ first (mutex_faults (before_seen at.now) at.now.definition.now name.now) }
{
    sooner(at.named_twice(name), at.many_names())
}

/// What is wrong with a function.
#[tactic(auto, using(c_expr_types::proofs::Firsts::first_append, crate::proofs::Hiding::first_hiding))]
fn function_fault(
    alloc: Global,
    at: &Context,
    function: &Function,
) -> Result<Option<Fault>, AllocError>
    ensures { IfOk result (λ fault. fault ≡ first (function_faults at.now.known.now (before_seen at.now) at.now.definition.now function.now)) }
{
    let mut scopes = Scopes::new(alloc);
    let around = Around {
        text: at.known,
        result: &function.result,
        loops: Loop::Outside,
        in_transaction: false,
    };
    let bound = bind(at.known, &mut scopes, function.parameters.as_slice())?;
    let body = statements(alloc, &around, &mut scopes, function.body.as_slice())?;
    let small = at.over_limit(is_small(function));
    let named = sooner(
        at.named_twice(&function.name),
        sooner(small, at.many_names()),
    );
    let own = sooner(result_fault(at.known, &function.result), named);
    Ok(hiding(sooner(bound, body), own))
}

/// What is wrong with a prototype.
#[tactic(auto, using(c_expr_types::proofs::Firsts::first_append, crate::proofs::Hiding::first_hiding))]
fn prototype_fault(
    alloc: Global,
    at: &Context,
    prototype: &Prototype,
) -> Result<Option<Fault>, AllocError>
    ensures { IfOk result (λ fault. fault ≡ first (prototype_faults at.now.known.now at.now.definition.now prototype.now)) }
{
    let parts = parameters(alloc, at.known, &prototype.parameters)?;
    let meaning = defined(at.known, prototype.name.text.as_str());
    let is_right = agrees(&meaning, &prototype.result, &prototype.parameters);
    let own = sooner(
        result_fault(at.known, &prototype.result),
        unless(is_right, TypeKind::WrongType, at.definition.place),
    );
    Ok(hiding(parts, own))
}

/// What is wrong with a global variable.
#[tactic(auto, using(c_expr_types::proofs::Firsts::first_append, crate::proofs::Hiding::first_hiding))]
fn global_fault(
    alloc: Global,
    at: &Context,
    variable: &Declaration,
) -> Result<Option<Fault>, AllocError>
    ensures { IfOk result (λ fault. fault ≡ first (global_faults at.now.known.now (before_seen at.now) at.now.definition.now variable.now)) }
{
    let part = initial(alloc, at.known, &variable.declared, &variable.initial)?;
    let small = at.over_limit(size::is_light(&variable.initial));
    let limits = sooner(small, sooner(at.many_names(), at.many_cells()));
    let own = sooner(
        unknown_tag(at.known, &variable.declared),
        sooner(at.named_twice(&variable.name), limits),
    );
    Ok(hiding(part, own))
}

/// What is wrong with an array.
#[tactic(auto, using(c_expr_types::proofs::Firsts::first_append, crate::proofs::Hiding::first_hiding))]
fn array_fault(alloc: Global, at: &Context, array: &Array) -> Result<Option<Fault>, AllocError>
    ensures { IfOk result (λ fault. fault ≡ first (array_faults at.now.known.now (before_seen at.now) at.now.definition.now array.now)) }
{
    let parts = initialisers_fault(
        alloc,
        at.known,
        &array.element,
        initialisers_of(&array.initial),
    )?;
    let small = at.over_limit(is_small_array(array));
    let limits = sooner(small, sooner(at.many_names(), at.many_cells()));
    let own = sooner(
        unknown_tag(at.known, &array.element),
        sooner(at.named_twice(&array.name), limits),
    );
    Ok(hiding(parts, own))
}

/// Whether two things hold.
fn both(a: bool, b: bool) -> bool
    ensures { result ≡ (a && b) }
{
    a && b
}

/// The fault of a transformer that isn't right.
fn bad_transformer(at: &Context, is_right: bool) -> Option<Fault>
    ensures { result ≡ first (unless is_right BadTransformer at.now.definition.now.place) }
{
    unless(is_right, TypeKind::BadTransformer, at.definition.place)
}

/// What is wrong with `dsu_transform struct T { .. }`.
fn struct_transform_fault(
    alloc: Global,
    at: &Context,
    transform: &StructTransform,
) -> Result<Option<Fault>, AllocError>
    ensures { IfOk result (λ fault. fault ≡ first (struct_transform_faults at.now.known.now (before_seen at.now) at.now.definition.now transform.now)) }
{
    let values = transform.values.as_slice();
    let is_first = !at.is_struct_transformed(&transform.name);
    let is_allowed = transforms_struct(alloc, at.known, transform.name.text.as_str(), values)?;
    Ok(sooner(
        bad_transformer(at, both(is_first, is_allowed)),
        at.over_limit(are_light(values)),
    ))
}

/// What is wrong with `dsu_transform g = e;`.
fn global_transform_fault(at: &Context, name: &Name, expr: &Expr) -> Option<Fault>
    ensures { result ≡ first (global_transform_faults at.now.known.now (before_seen at.now) at.now.definition.now name.now expr.now) }
{
    let is_first = !at.is_global_transformed(name);
    let meaning = defined(at.known, name.text.as_str());
    let is_found = both(is_first, is_global(&meaning));
    sooner(
        bad_transformer(at, both(is_found, is_transforming(at.known, expr))),
        at.over_limit(is_light(expr)),
    )
}

/// What is wrong with a definition.
pub(crate) fn kind_fault(alloc: Global, at: &Context) -> Result<Option<Fault>, AllocError>
    ensures { IfOk result (λ fault. fault ≡ first (kind_faults at.now.known.now (before_seen at.now) at.now.definition.now at.now.definition.now.kind)) }
{
    match &at.definition.kind {
        DefKind::Struct(tag, members) => struct_fault(alloc, at, tag, members),
        DefKind::Forward(tag) => Ok(forward_fault(at, tag)),
        DefKind::Mutex(name) => Ok(mutex_fault(at, name)),
        DefKind::Function(function) => function_fault(alloc, at, function),
        DefKind::Prototype(prototype) => prototype_fault(alloc, at, prototype),
        DefKind::Global(variable) => global_fault(alloc, at, variable),
        DefKind::Array(array) => array_fault(alloc, at, array),
        DefKind::TransformStruct(transform) => struct_transform_fault(alloc, at, transform),
        DefKind::TransformGlobal(name, expr) => Ok(global_transform_fault(at, name, expr)),
    }
}
