//! Names and calls, by what is known of them.
ghost use Rattle.std.specs.Prelude.{◌≡◌, map, option_map, slice_get, IfOk};
ghost use Rattle.std.specs.Option.{option_map_or};
ghost use Rattle.c_tree.specs.Bare.{bare_type, bare_binding};
ghost use Rattle.c_semantics.specs.Resolved.{ExpressionThen, Call, Print, Create, Element as ElementPlace};
ghost use Rattle.c_semantics.specs.Names.{struct_name};
ghost use Rattle.c_semantics.specs.Texts.{int, global_type, result_type, parameters_of, members_of, bound, bound_type};
ghost use Rattle.c_semantics.specs.Resolution.{value as value_of, located, variable as variable_of, field as field_of, handed, passed as passed_to};
ghost use Rattle.resolved_tree.specs.Nodes.{Table, word as word_of, expression_at, arguments_at, arguments_of, type_of};
ghost use Rattle.resolved_tree.specs.Parts.{a_word, a_node, both, in_type, in_arguments};
ghost use Rattle.name_resolution.specs.Found.{Grows, IsIn, found, in_found, given, listed, each_node};
ghost use Rattle.name_resolution.specs.Known.{known_of, locals_of};
ghost use Rattle.resolved_tree.specs.Trees.{table};

use crate::found::{Found, expression, place, tree, value, value_type, word};
use crate::known::{
    Local, bound_in, global_type, local_type, members, name_of_struct, parameters, result_type,
};
use crate::operator::tag;
use crate::types::INT;
use c_definitions::Known;
use c_tree::{Binding, CType};
use resolved_tree::{ArgumentsNode, ExpressionNode, Node, NodeId, Place, Trees, ValueType, Word};
use std::alloc::AllocError;

/// A type of the text, or `int` where there is none.
pub(crate) fn type_or_int(
    trees: &mut Trees,
    declared: Option<&CType>,
) -> Result<ValueType, AllocError>
    ensures declared { IfOk result (λ r. (u : Table) → Grows (table trees.new) u
        → type_of u r ≡ option_map_or (λ d. bare_type d.now) declared.entry int) }
    ensures within { IfOk result (λ r. IsIn (table trees.new) (in_type r)) }
    ensures grows { Grows (table trees.old) (table trees.new) }
{
    match declared {
        Some(declared) => value_type(trees, declared),
        None => Ok(INT),
    }
}

/// A variable: of the locals in scope, the innermost first, else the global one.
pub(crate) fn variable(
    trees: &mut Trees,
    known: &Known,
    locals: &[Local],
    name: &str,
) -> Result<Found, AllocError>
    ensures found { IfOk result (λ r. (u : Table) → Grows (table trees.new) u
        → found u r ≡ variable_of (known_of known.now) name.now (bound (locals_of locals.now) name.now)) }
    ensures within { IfOk result (λ r. IsIn (table trees.new) (in_found r)) }
    ensures grows { Grows (table trees.old) (table trees.new) }
{
    match local_type(locals, name) {
        Some(declared) => {
            let declared = value_type(trees, declared)?;
            let name = word(trees, name)?;
            Ok(Found::Located(Place::Local(name), declared))
        }
        None => {
            let declared = type_or_int(trees, global_type(known, name))?;
            let name = word(trees, name)?;
            Ok(Found::Located(Place::Global(name), declared))
        }
    }
}

/// An element of a global array.
pub(crate) fn element(
    trees: &mut Trees,
    known: &Known,
    name: &str,
    index: Found,
) -> Result<Found, AllocError>
    requires { IsIn (table trees.old) (in_found index) }
    ensures found { IfOk result (λ r. (u : Table) → Grows (table trees.new) u
        → found u r ≡ located (ElementPlace name.now (found u index).tree) (global_type (known_of known.now name.now))) }
    ensures within { IfOk result (λ r. IsIn (table trees.new) (in_found r)) }
    ensures grows { Grows (table trees.old) (table trees.new) }
{
    let index = tree(trees, index)?;
    let declared = type_or_int(trees, global_type(known, name))?;
    let name = word(trees, name)?;
    Ok(Found::Located(Place::Element(name, index), declared))
}

/// The type of a field of the struct with a tag.
fn member_type(
    trees: &mut Trees,
    known: &Known,
    tag: Word,
    name: &str,
) -> Result<ValueType, AllocError>
    requires { IsIn (table trees.old) (a_word tag) }
    ensures declared { IfOk result (λ r. (u : Table) → Grows (table trees.new) u
        → type_of u r ≡ bound_type (members_of (known_of known.now (struct_name (word_of u tag)))) name.now) }
    ensures within { IfOk result (λ r. IsIn (table trees.new) (in_type r)) }
    ensures grows { Grows (table trees.old) (table trees.new) }
{
    let key = name_of_struct(trees.allocator(), trees.text(tag))?;
    type_or_int(trees, bound_in(members(known, key.as_str()), name))
}

/// A field of what a handle means, by the type of the handle (C11 6.5.2.3).
pub(crate) fn field(
    trees: &mut Trees,
    known: &Known,
    of: Found,
    name: &str,
) -> Result<Found, AllocError>
    requires { IsIn (table trees.old) (in_found of) }
    ensures found { IfOk result (λ r. (u : Table) → Grows (table trees.new) u
        → found u r ≡ field_of (known_of known.now) (found u of) name.now) }
    ensures within { IfOk result (λ r. IsIn (table trees.new) (in_found r)) }
    ensures grows { Grows (table trees.old) (table trees.new) }
{
    let tag = tag(trees, of.declared())?;
    let declared = member_type(trees, known, tag, name)?;
    let handle = tree(trees, of)?;
    let name = word(trees, name)?;
    Ok(Found::Located(Place::Field(tag, handle, name), declared))
}

/// An argument, converted to the type of its parameter where there is one (C11 6.5.2.2).
fn argument(
    trees: &mut Trees,
    given_tree: NodeId,
    parameter: Option<&Binding>,
) -> Result<NodeId, AllocError>
    requires { IsIn (table trees.old) (a_node given_tree) }
    ensures tree { IfOk result (λ id. (u : Table) → Grows (table trees.new) u
        → expression_at u id ≡ given (option_map (λ b. bare_binding b.now) parameter.entry) (expression_at u given_tree)) }
    ensures within { IfOk result (λ id. IsIn (table trees.new) (a_node id)) }
    ensures grows { Grows (table trees.old) (table trees.new) }
{
    match parameter {
        Some(parameter) => {
            let to = value_type(trees, &parameter.declared)?;
            expression(trees, ExpressionNode::Convert(to, given_tree))
        }
        None => Ok(given_tree),
    }
}

/// The parameter at a place, where there are as many.
fn parameter_at(parameters: &[Binding], place: usize) -> Option<&Binding>
    ensures { option_map (λ b. bare_binding b.now) result
        ≡ slice_get (map bare_binding parameters.now) place }
{
    parameters.get(place)
}

/// `thrd_create(&t, f, a)`
pub(crate) fn create(
    trees: &mut Trees,
    known: &Known,
    thread: Found,
    name: &str,
    handed_over: Found,
) -> Result<Found, AllocError>
    requires { IsIn (table trees.old) (both (in_found thread) (in_found handed_over)) }
    ensures found { IfOk result (λ r. (u : Table) → Grows (table trees.new) u
        → found u r ≡ value_of (Create (found u thread).place name.now
        (handed (parameters_of (known_of known.now name.now)) (found u handed_over).tree)) int) }
    ensures within { IfOk result (λ r. IsIn (table trees.new) (in_found r)) }
    ensures grows { Grows (table trees.old) (table trees.new) }
{
    let place = place(trees, thread)?;
    let value_tree = tree(trees, handed_over)?;
    let passed = argument(trees, value_tree, parameter_at(parameters(known, name), 0))?;
    let name = word(trees, name)?;
    value(trees, ExpressionNode::Create(place, name, passed), INT)
}

/// A new tree of arguments.
fn arguments(trees: &mut Trees, node: ArgumentsNode) -> Result<NodeId, AllocError>
    requires { IsIn (table trees.old) (in_arguments node) }
    ensures tree { IfOk result (λ id. (u : Table) → Grows (table trees.new) u → arguments_at u id ≡ arguments_of u node) }
    ensures within { IfOk result (λ id. IsIn (table trees.new) (a_node id)) }
    ensures grows { Grows (table trees.old) (table trees.new) }
{
    let id = trees.push(Node::Arguments(node))?;
    Ok(id)
}

/// The trees of arguments as one list, each converted to the type of its parameter where there is one.
fn passed(trees: &mut Trees, ids: &[NodeId], parameters: &[Binding]) -> Result<NodeId, AllocError>
    requires { IsIn (table trees.old) (each_node ids.now) }
    ensures tree { IfOk result (λ id. (u : Table) → Grows (table trees.new) u
        → arguments_at u id ≡ passed_to (listed (map (expression_at u) ids.now)) (map bare_binding parameters.now)) }
    ensures within { IfOk result (λ id. IsIn (table trees.new) (a_node id)) }
    ensures grows { Grows (table trees.old) (table trees.new) }
{
    let mut list = arguments(trees, ArgumentsNode::None)?;
    let mut i = ids.len();
    while i > 0 {
        i -= 1;
        list = argument_before(trees, ids[i], parameter_at(parameters, i), list)?;
    }
    Ok(list)
}

/// Arguments with one more in front, converted to the type of its parameter where there is one.
fn argument_before(
    trees: &mut Trees,
    given_tree: NodeId,
    parameter: Option<&Binding>,
    others: NodeId,
) -> Result<NodeId, AllocError>
    requires { IsIn (table trees.old) (both (a_node given_tree) (a_node others)) }
    ensures tree { IfOk result (λ id. (u : Table) → Grows (table trees.new) u
        → arguments_at u id ≡ ExpressionThen (given (option_map (λ b. bare_binding b.now) parameter.entry) (expression_at u given_tree))
        (arguments_at u others)) }
    ensures within { IfOk result (λ id. IsIn (table trees.new) (a_node id)) }
    ensures grows { Grows (table trees.old) (table trees.new) }
{
    let first = argument(trees, given_tree, parameter)?;
    arguments(trees, ArgumentsNode::Then(first, others))
}

/// A call.
pub(crate) fn call(
    trees: &mut Trees,
    known: &Known,
    name: &str,
    ids: &[NodeId],
) -> Result<Found, AllocError>
    requires { IsIn (table trees.old) (each_node ids.now) }
    ensures found { IfOk result (λ r. (u : Table) → Grows (table trees.new) u
        → found u r ≡ value_of (Call name.now (passed_to (listed (map (expression_at u) ids.now))
        (parameters_of (known_of known.now name.now)))) (result_type (known_of known.now name.now))) }
    ensures within { IfOk result (λ r. IsIn (table trees.new) (in_found r)) }
    ensures grows { Grows (table trees.old) (table trees.new) }
{
    let list = passed(trees, ids, parameters(known, name))?;
    let declared = type_or_int(trees, result_type(known, name))?;
    let name = word(trees, name)?;
    value(trees, ExpressionNode::Call(name, list), declared)
}

/// A `printf`.
pub(crate) fn print(trees: &mut Trees, format: &str, ids: &[NodeId]) -> Result<Found, AllocError>
    requires { IsIn (table trees.old) (each_node ids.now) }
    ensures found { IfOk result (λ r. (u : Table) → Grows (table trees.new) u
        → found u r ≡ value_of (Print format.now (listed (map (expression_at u) ids.now))) int) }
    ensures within { IfOk result (λ r. IsIn (table trees.new) (in_found r)) }
    ensures grows { Grows (table trees.old) (table trees.new) }
{
    let list = passed(trees, ids, &[])?;
    let format = word(trees, format)?;
    value(trees, ExpressionNode::Print(format, list), INT)
}
