//! Expressions as they are resolved, and the trees that are made of them.
ghost use Rattle.std.specs.Prelude.{◌≡◌, IfOk};
ghost use Rattle.c_tree.specs.Bare.{bare_type};
ghost use Rattle.c_semantics.specs.Resolved.{Convert};
ghost use Rattle.c_semantics.specs.Resolution.{value as value_of};
ghost use Rattle.resolved_tree.specs.Nodes.{Table, word as word_of, expression_at, expression_of, place_of, type_of};
ghost use Rattle.resolved_tree.specs.Parts.{a_word, a_node, in_expression, in_place, in_type, both};
ghost use Rattle.name_resolution.specs.Found.{Grows, IsIn, found, in_found};
ghost use Rattle.resolved_tree.specs.Trees.{table};

use c_tree::CType;
use resolved_tree::{ExpressionNode, Node, NodeId, Place, Trees, ValueType, Word};
use std::alloc::AllocError;

/// What an expression is: a value by its tree, or a place, which is read where its value is asked.
#[derive(Clone, Copy)]
pub(crate) enum Found {
    Value(NodeId, ValueType),
    Located(Place, ValueType),
}

impl Found {
    /// The type.
    pub(crate) fn declared(self) -> ValueType
        ensures declared { (t : Table) → type_of t result ≡ (found t self).type }
        ensures within { (t : Table) → IsIn t (in_found self) → IsIn t (in_type result) }
    {
        match self {
            Found::Value(_, declared) | Found::Located(_, declared) => declared,
        }
    }
}

/// The word of a name.
pub fn word(trees: &mut Trees, text: &str) -> Result<Word, AllocError>
    ensures word { IfOk result (λ w. (u : Table) → Grows (table trees.new) u → word_of u w ≡ text.now) }
    ensures within { IfOk result (λ w. IsIn (table trees.new) (a_word w)) }
    ensures grows { Grows (table trees.old) (table trees.new) }
{
    let word = trees.word(text)?;
    Ok(word)
}

/// A new tree of an expression.
pub(crate) fn expression(trees: &mut Trees, node: ExpressionNode) -> Result<NodeId, AllocError>
    requires { IsIn (table trees.old) (in_expression node) }
    ensures tree { IfOk result (λ id. (u : Table) → Grows (table trees.new) u → expression_at u id ≡ expression_of u node) }
    ensures within { IfOk result (λ id. IsIn (table trees.new) (a_node id)) }
    ensures grows { Grows (table trees.old) (table trees.new) }
{
    let id = trees.push(Node::Expression(node))?;
    Ok(id)
}

/// A type of the text.
pub fn value_type(trees: &mut Trees, declared: &CType) -> Result<ValueType, AllocError>
    ensures declared { IfOk result (λ r. (u : Table) → Grows (table trees.new) u → type_of u r ≡ bare_type declared.now) }
    ensures within { IfOk result (λ r. IsIn (table trees.new) (in_type r)) }
    ensures grows { Grows (table trees.old) (table trees.new) }
{
    match declared {
        CType::Integer(kind) => Ok(ValueType::Integer(*kind)),
        CType::Handle(tag) => {
            let tag = word(trees, tag.text.as_str())?;
            Ok(ValueType::Handle(tag))
        }
        CType::Thread => Ok(ValueType::Thread),
    }
}

/// A value that is a new tree.
pub(crate) fn value(
    trees: &mut Trees,
    node: ExpressionNode,
    declared: ValueType,
) -> Result<Found, AllocError>
    requires { IsIn (table trees.old) (both (in_expression node) (in_type declared)) }
    ensures found { IfOk result (λ r. (u : Table) → Grows (table trees.new) u → found u r ≡ value_of (expression_of u node) (type_of u declared)) }
    ensures within { IfOk result (λ r. IsIn (table trees.new) (in_found r)) }
    ensures grows { Grows (table trees.old) (table trees.new) }
{
    let id = expression(trees, node)?;
    Ok(Found::Value(id, declared))
}

/// The tree of an expression.
pub(crate) fn tree(trees: &mut Trees, of: Found) -> Result<NodeId, AllocError>
    requires { IsIn (table trees.old) (in_found of) }
    ensures tree { IfOk result (λ id. (u : Table) → Grows (table trees.new) u → expression_at u id ≡ (found u of).tree) }
    ensures within { IfOk result (λ id. IsIn (table trees.new) (a_node id)) }
    ensures grows { Grows (table trees.old) (table trees.new) }
{
    match of {
        Found::Value(id, _) => Ok(id),
        Found::Located(place, _) => expression(trees, ExpressionNode::Read(place)),
    }
}

/// The place of an expression; where it is none, the local variable without a name.
pub(crate) fn place(trees: &mut Trees, of: Found) -> Result<Place, AllocError>
    requires { IsIn (table trees.old) (in_found of) }
    ensures place { IfOk result (λ p. (u : Table) → Grows (table trees.new) u → place_of u p ≡ (found u of).place) }
    ensures within { IfOk result (λ p. IsIn (table trees.new) (in_place p)) }
    ensures grows { Grows (table trees.old) (table trees.new) }
{
    match of {
        Found::Value(_, _) => {
            let nowhere = word(trees, "")?;
            Ok(Place::Local(nowhere))
        }
        Found::Located(place, _) => Ok(place),
    }
}

/// The tree of an expression, converted to a type.
pub(crate) fn converted(trees: &mut Trees, to: ValueType, of: Found) -> Result<NodeId, AllocError>
    requires { IsIn (table trees.old) (both (in_type to) (in_found of)) }
    ensures tree { IfOk result (λ id. (u : Table) → Grows (table trees.new) u → expression_at u id ≡ Convert (type_of u to) (found u of).tree) }
    ensures within { IfOk result (λ id. IsIn (table trees.new) (a_node id)) }
    ensures grows { Grows (table trees.old) (table trees.new) }
{
    let value = tree(trees, of)?;
    expression(trees, ExpressionNode::Convert(to, value))
}
