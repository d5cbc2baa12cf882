//! The bodies of a whole text.
ghost use Rattle.std.specs.Prelude.{◌≡◌, ◌++◌, [], List, All, map, option_copied, option_map, IfOk, IfSome, IsErrOf, OnOk};
ghost use Rattle.std.specs.List.{cons_option};
ghost use Rattle.c_tree.specs.Bare.{bare_def};
ghost use Rattle.c_types.specs.Definitions.{Types};
ghost use Rattle.c_semantics.specs.Changes.{changed as changed_names, interface as interface_names};
ghost use Rattle.c_semantics.specs.SourceTexts.{Text, text_of, tokens_of_kind};
ghost use Rattle.c_semantics.specs.Store.{body_of, brought_bodies, tokens_of};
ghost use Rattle.name_resolution.specs.Known.{known_of};
ghost use Rattle.code_store.specs.Stored.{meant_body, IsNamed, AreDistinct};
ghost use Rattle.brought_bodies.specs.Sets.{IsSetOf};
ghost use Rattle.brought_bodies.specs.Patches.{HasSets, IsBodyIn, function_of};
ghost use Rattle.brought_bodies.specs.Unknown.{IsUnknownIn, HasUnknownFunction};

use crate::fault::BodyFault;
use crate::patch::Patch;
use c_definitions::Known;
use c_tree::{Def, DefKind, Function, Program};
use c_types::Typed;
use code_store::StoredBody;
use name_sets::{NameSet, Names};
use std::alloc::{AllocError, Global};

/// The bodies that a text brings as a version that follows `old`, in the order of the text. `changed` has the ids of the
/// names of the older text whose definitions change, and `interface` of those whose interfaces change. All functions of the
/// text and the names that they use are in the table.
pub fn brought(
    alloc: Global,
    version: u32,
    names: &Names,
    changed: &NameSet,
    interface: &NameSet,
    old: &Typed,
    new: &Typed,
) -> Result<Vec<StoredBody>, BodyFault>
    ensures bodies { let p = map bare_def old.now.definitions in
        let q = text_of new.now in
        IsSetOf names.now changed.now (changed_names p q.definitions)
        → IsSetOf names.now interface.now (interface_names p q.definitions)
        → IfOk result (λ bodies. map (meant_body names.now) bodies.items ≡ brought_bodies version p q) }
    ensures named { IfOk result (λ bodies. All (IsNamed names.now) bodies.items) }
    ensures generation { IfOk result (λ bodies. All (λ b. b.generation ≡ version) bodies.items) }
    ensures distinct { IfOk result (λ bodies. AreDistinct bodies.items) }
    ensures unknown { IsErrOf result BodyFault.Unknown
        → HasUnknownFunction names.now (map bare_def new.now.definitions) }
{
    let old = Known::of(alloc, old.program().definitions.as_slice())?;
    bodies_after(
        alloc,
        version,
        names,
        changed,
        interface,
        &old,
        new.program(),
    )
}

/// The bodies that a text brings as the first version, in the order of the text: one for each of its functions. All functions
/// of the text and the names that they use are in the table.
pub fn first_bodies(
    alloc: Global,
    names: &Names,
    text: &Typed,
) -> Result<Vec<StoredBody>, BodyFault>
    ensures bodies { IfOk result (λ bodies.
        map (meant_body names.now) bodies.items ≡ brought_bodies 1 [] (text_of text.now)) }
    ensures named { IfOk result (λ bodies. All (IsNamed names.now) bodies.items) }
    ensures generation { IfOk result (λ bodies. All (λ b. b.generation ≡ 1) bodies.items) }
    ensures distinct { IfOk result (λ bodies. AreDistinct bodies.items) }
    ensures unknown { IsErrOf result BodyFault.Unknown
        → HasUnknownFunction names.now (map bare_def text.now.definitions) }
{
    let none = NameSet::empty();
    let old = Known::of(alloc, &[])?;
    bodies_after(alloc, 1, names, &none, &none, &old, text.program())
}

/// The bodies that a text brings as a version that follows some definitions.
fn bodies_after(
    alloc: Global,
    version: u32,
    names: &Names,
    changed: &NameSet,
    interface: &NameSet,
    old: &Known,
    program: &Program,
) -> Result<Vec<StoredBody>, BodyFault>
    requires { Types program.now }
    ensures bodies { let p = map bare_def old.now in
        let q = text_of program.now in
        IsSetOf names.now changed.now (changed_names p q.definitions)
        → IsSetOf names.now interface.now (interface_names p q.definitions)
        → IfOk result (λ bodies. map (meant_body names.now) bodies.items ≡ brought_bodies version p q) }
    ensures named { IfOk result (λ bodies. All (IsNamed names.now) bodies.items) }
    ensures generation { IfOk result (λ bodies. All (λ b. b.generation ≡ version) bodies.items) }
    ensures distinct { IfOk result (λ bodies. AreDistinct bodies.items) }
    ensures unknown { IsErrOf result BodyFault.Unknown
        → HasUnknownFunction names.now (map bare_def program.now.definitions) }
{
    let known = Known::of(alloc, program.definitions.as_slice())?;
    let patch = Patch {
        version,
        names,
        changed,
        interface,
        old,
        new: &known,
    };
    new_bodies(alloc, &patch, program)
}

/// The new bodies of a text.
fn new_bodies(alloc: Global, patch: &Patch, program: &Program) -> Result<Vec<StoredBody>, BodyFault>
    requires types { Types program.now }
    requires text { program.now.definitions ≡ patch.now.new.now }
    ensures bodies { HasSets patch.now → IfOk result (λ bodies. map (meant_body patch.now.names.now) bodies.items
        ≡ brought_bodies patch.now.version (map bare_def patch.now.old.now) (text_of program.now)) }
    ensures named { IfOk result (λ bodies. All (IsNamed patch.now.names.now) bodies.items) }
    ensures generation { IfOk result (λ bodies. All (λ b. b.generation ≡ patch.now.version) bodies.items) }
    ensures distinct { IfOk result (λ bodies. AreDistinct bodies.items) }
    ensures unknown { IsErrOf result BodyFault.Unknown
        → HasUnknownFunction patch.now.names.now (map bare_def program.now.definitions) }
{
    let mut bodies = Vec::new(alloc);
    for one in program.definitions.as_slice() {
        let body = body_in(alloc, patch, one)?;
        push_if(&mut bodies, body)?;
    }
    Ok(bodies)
}

/// Adds a body, if there is one.
fn push_if(bodies: &mut Vec<StoredBody>, body: Option<StoredBody>) -> Result<(), AllocError>
    ensures { OnOk result (bodies.new.items ≡ bodies.old.items ++ cons_option body []) }
{
    if let Some(body) = body {
        bodies.push(body)?;
    }
    Ok(())
}

/// The new body of a definition, if it is a function that gets one.
fn body_in(alloc: Global, patch: &Patch, one: &Def) -> Result<Option<StoredBody>, BodyFault>
    ensures body { (q : Text) → q.definitions ≡ map bare_def patch.now.new.now → HasSets patch.now
        → IfSome (tokens_of_kind one.now.kind) (λ t. tokens_of q t.function ≡ t.count)
        → IfOk result (λ body. option_map (meant_body patch.now.names.now) body
        ≡ body_of patch.now.version (map bare_def patch.now.old.now) q (bare_def one.now)) }
    ensures known { IfOk result (λ body.
        IfSome body (IsBodyIn patch.now.names.now patch.now.version one.now.kind)) }
    ensures unknown { IsErrOf result BodyFault.Unknown
        → IsUnknownIn patch.now.names.now (known_of patch.now.new.now) (bare_def one.now) }
{
    match function_in(&one.kind) {
        Some(function) => patch.new_body(alloc, function),
        None => Ok(None),
    }
}

/// The function that a definition defines, if it defines one.
fn function_in(kind: &DefKind) -> Option<&Function>
    ensures { option_copied result ≡ function_of kind.now }
{
    match kind {
        DefKind::Function(function) => Some(function),
        DefKind::Struct(_, _)
        | DefKind::Forward(_)
        | DefKind::Mutex(_)
        | DefKind::Prototype(_)
        | DefKind::Global(_)
        | DefKind::Array(_)
        | DefKind::TransformStruct(_)
        | DefKind::TransformGlobal(_, _) => None,
    }
}
