//! What the code of a function is made from.
ghost use Rattle.std.specs.Prelude.{◌≡◌, IfOk, Some, map, reverse};
ghost use Rattle.c_tree.specs.Bare.{bare_binding, bare_function};
ghost use Rattle.c_semantics.specs.Texts.{result_type};
ghost use Rattle.expr_gen.specs.Scope.{binding_of, variables_of};
ghost use Rattle.name_resolution.specs.Found.{Grows};
ghost use Rattle.name_resolution.specs.Known.{known_of};
ghost use Rattle.resolved_tree.specs.Nodes.{Table, type_of};
ghost use Rattle.resolved_tree.specs.Trees.{table};
ghost use Rattle.text_code.specs.Bodies.{outlined, outline_if};

use c_definitions::Known;
use c_ints::Kind;
use c_tree::{Binding, Function};
use expr_gen::Variable;
use name_resolution::{resolve_body, value_type, word};
use resolved_tree::{NodeId, Trees, ValueType, Word};
use std::alloc::{AllocError, Global};

/// A function whose body is in the table of trees.
#[derive(Drop)]
pub struct Outline {
    pub name: Word,
    /// The parameters, the last one first, as a frame numbers them.
    pub parameters: Vec<Variable>,
    /// The type of its value, which is `int` where it has none.
    pub result: ValueType,
    pub body: NodeId,
}

/// A function's outline; its body is added to the table.
pub(crate) fn resolved(
    alloc: Global,
    trees: &mut Trees,
    known: &Known,
    function: &Function,
) -> Result<Outline, AllocError>
    ensures made { IfOk result (λ made. (u : Table) → Grows (table trees.new) u
        → Some (outlined u made) ≡ outline_if (known_of known.now) (bare_function function.now)) }
    ensures grows { Grows (table trees.old) (table trees.new) }
{
    let body = resolve_body(trees, known, function)?;
    let name = word(trees, function.name.text.as_str())?;
    let parameters = parameters(alloc, trees, function.parameters.as_slice())?;
    let result = returned(trees, function)?;
    Ok(Outline {
        name,
        parameters,
        result,
        body,
    })
}

/// The type of a function's value.
fn returned(trees: &mut Trees, function: &Function) -> Result<ValueType, AllocError>
    ensures declared { IfOk result (λ r. (u : Table) → Grows (table trees.new) u
        → type_of u r ≡ result_type (Some (bare_function function.now))) }
    ensures grows { Grows (table trees.old) (table trees.new) }
{
    match &function.result {
        Some(declared) => value_type(trees, declared),
        None => Ok(ValueType::Integer(Kind::I32)),
    }
}

/// Parameters, the last one first.
fn parameters(
    alloc: Global,
    trees: &mut Trees,
    declared: &[Binding],
) -> Result<Vec<Variable>, AllocError>
    ensures parameters { IfOk result (λ vs. (u : Table) → Grows (table trees.new) u
        → variables_of u vs.items ≡ map bare_binding declared.now) }
    ensures grows { Grows (table trees.old) (table trees.new) }
{
    let variables = in_order(alloc, trees, declared)?;
    Ok(last_first(variables))
}

/// The same variables, the last one first.
fn last_first(variables: Vec<Variable>) -> Vec<Variable>
    ensures { result.items ≡ reverse variables.items }
{
    let mut turned = variables;
    turned.as_mut_slice().reverse();
    turned
}

/// Parameters in their order.
fn in_order(
    alloc: Global,
    trees: &mut Trees,
    declared: &[Binding],
) -> Result<Vec<Variable>, AllocError>
    ensures variables { IfOk result (λ vs. (u : Table) → Grows (table trees.new) u
        → map (binding_of u) vs.items ≡ map bare_binding declared.now) }
    ensures grows { Grows (table trees.old) (table trees.new) }
{
    let mut variables = Vec::with_capacity(alloc, declared.len())?;
    for one in declared {
        let variable = variable(trees, one)?;
        variables.push(variable)?;
    }
    Ok(variables)
}

/// A parameter.
fn variable(trees: &mut Trees, declared: &Binding) -> Result<Variable, AllocError>
    ensures variable { IfOk result (λ v. (u : Table) → Grows (table trees.new) u → binding_of u v ≡ bare_binding declared.now) }
    ensures grows { Grows (table trees.old) (table trees.new) }
{
    let name = word(trees, declared.name.text.as_str())?;
    let declared = value_type(trees, &declared.declared)?;
    Ok(Variable { declared, name })
}
