//! The effects.
ghost use Rattle.std.specs.Prelude.{◌≡◌, ℕ, ◌<◌, ◌≤◌, ◌↔◌, ◌⊎◌, List, length, IfOk};
ghost use Rattle.name_sets.specs.IdSet.{Holds};
ghost use Rattle.name_sets.specs.Limit.{most_names};
ghost use Rattle.c_tree.specs.BareExpr.{Bytes};
ghost use Rattle.c_semantics.specs.Store.{Body};
ghost use Rattle.effect_flow.specs.Flows.{IsFlowOf};
ghost use Rattle.contextual_effects.specs.Effects.{AreEffectsOf, AreForPoints};
ghost use Rattle.contextual_effects.specs.Steps.{Numbers, HasNodes, AreSetsOf, BeginSetsOf, IsMarked, HasNested, AreStandard};

use crate::constraints::System;
use crate::initial::{no_sets, seeds, tokens};
use crate::nodes::Nodes;
use effect_flow::Flow;
use name_sets::{NameId, NameSet};
use set_constraints::least_sets;
use std::alloc::{AllocError, Global};
use std::marker::Model;

/// The effects of the points of a flow, and of functions. Contracts see the four lists of sets.
#[derive(Drop)]
pub struct Effects {
    prior: Vec<NameSet>,
    future: Vec<NameSet>,
    concrete: Vec<NameSet>,
    standard: Vec<NameSet>,
}

impl Model for Effects {
    ghost use Rattle.contextual_effects.specs.Effects.{Sets};

    ghost Value = { Sets };

    ghost view = { λ e. record {
      prior = e.prior.items;
      future = e.future.items;
      concrete = e.concrete.items;
      standard = e.standard.items;
    } };
}

impl Effects {
    /// The prior effect of each point, by its place in the flow.
    pub fn prior(&self) -> &[NameSet]
        ensures { result.now ≡ self.now.prior }
    {
        self.prior.as_slice()
    }

    /// The future effect of each point, by its place in the flow.
    pub fn future(&self) -> &[NameSet]
        ensures { result.now ≡ self.now.future }
    {
        self.future.as_slice()
    }

    /// The concrete effect of each point, by its place in the flow.
    pub fn concrete(&self) -> &[NameSet]
        ensures { result.now ≡ self.now.concrete }
    {
        self.concrete.as_slice()
    }

    /// The standard effect of each function, by its id. A function past the end has none, since no body is its.
    pub fn standard(&self) -> &[NameSet]
        ensures { result.now ≡ self.now.standard }
    {
        self.standard.as_slice()
    }
}

/// The sets of a system in which functions begin with given sets.
fn sets_of(
    alloc: Global,
    system: System,
    nodes: &Nodes,
    nested: &NameSet,
    whole: &[NameSet],
    flow: &Flow,
) -> Result<Vec<NameSet>, AllocError>
    requires numbers { Numbers nodes.now.points nodes.now.names flow.now }
    requires whole { length whole.now ≡ nodes.now.names }
    requires points { HasNodes system }
    ensures { IfOk result (λ sets. AreSetsOf system nodes.now.points nodes.now.names nested.now whole.now flow.now sets.items) }
{
    let edges = system.edges(alloc, nodes, nested, flow)?;
    let seeds = seeds(alloc, nodes, whole)?;
    least_sets(alloc, seeds, edges, system.order())
}

/// The sets of the points alone.
fn sets_of_points(
    alloc: Global,
    system: System,
    nodes: &Nodes,
    nested: &NameSet,
    whole: &[NameSet],
    flow: &Flow,
) -> Result<Vec<NameSet>, AllocError>
    requires numbers { Numbers nodes.now.points nodes.now.names flow.now }
    requires whole { length whole.now ≡ nodes.now.names }
    requires points { HasNodes system }
    ensures many { IfOk result (λ sets. length sets.items ≡ nodes.now.points) }
    ensures sets { IfOk result (λ sets. BeginSetsOf system nodes.now.points nodes.now.names nested.now whole.now flow.now sets.items) }
{
    let mut sets = sets_of(alloc, system, nodes, nested, whole, flow)?;
    sets.truncate(nodes.points);
    Ok(sets)
}

/// The standard effects of functions.
fn standard_effects(alloc: Global, nodes: &Nodes, flow: &Flow) -> Result<Vec<NameSet>, AllocError>
    requires { Numbers nodes.now.points nodes.now.names flow.now }
    ensures many { IfOk result (λ sets. length sets.items ≡ nodes.now.names) }
    ensures effects { IfOk result (λ sets. (names : List Bytes) (bodies : List Body)
        → IsFlowOf names bodies flow.now → AreStandard names bodies sets.items) }
{
    let nested = NameSet::empty();
    let whole = no_sets(alloc, nodes.names)?;
    let sets = sets_of(alloc, System::Standard, nodes, &nested, &whole, flow)?;
    let first = nodes.points + nodes.names;
    let standard = Vec::from_slice(alloc, &sets[first..first + nodes.names])?;
    Ok(standard)
}

/// Adds an id if a set has the token 0.
fn add_if_marked(nested: &mut NameSet, set: &NameSet, id: usize)
    requires { id < most_names }
    ensures { (f : ℕ) → Holds nested.new f ↔ (Holds nested.old f ⊎ ((f ≡ id) × Holds set.now 0)) }
{
    if let (Some(id), Some(token)) = (NameId::new(id), NameId::new(0)) {
        if set.holds(token) {
            nested.add(id);
        }
    }
}

/// The functions that have the token.
fn marked(sets: &[NameSet], count: usize) -> NameSet
    requires many { count ≤ length sets.now }
    requires few { count ≤ most_names }
    ensures { IsMarked count sets.now result }
{
    let mut nested = NameSet::empty();
    for id in 0..count {
        add_if_marked(&mut nested, &sets[id], id);
    }
    nested
}

/// The nested functions.
fn nested_functions(alloc: Global, nodes: &Nodes, flow: &Flow) -> Result<NameSet, AllocError>
    requires { Numbers nodes.now.points nodes.now.names flow.now }
    ensures { IfOk result (λ nested. (names : List Bytes) (bodies : List Body)
        → IsFlowOf names bodies flow.now → HasNested names bodies nested) }
{
    let none = NameSet::empty();
    let edges = System::Nested.edges(alloc, nodes, &none, flow)?;
    let seeds = tokens(alloc, nodes.names)?;
    let sets = least_sets(alloc, seeds, edges, System::Nested.order())?;
    Ok(marked(&sets, nodes.names))
}

/// The effects of the points of a flow, and of the functions whose bodies it has: exactly the least sets that the rules
/// allow.
pub fn solve(alloc: Global, flow: &Flow) -> Result<Effects, AllocError>
    ensures effects { IfOk result (λ e. (names : List Bytes) (bodies : List Body)
        → IsFlowOf names bodies flow.now → AreEffectsOf names bodies e) }
    ensures places { IfOk result (λ e. AreForPoints (length flow.now.points) e) }
{
    let nodes = Nodes::of(flow);
    let nested = nested_functions(alloc, &nodes, flow)?;
    let whole = no_sets(alloc, nodes.names)?;
    let standard = standard_effects(alloc, &nodes, flow)?;
    let prior = sets_of_points(alloc, System::Prior, &nodes, &nested, &standard, flow)?;
    let future = sets_of_points(alloc, System::Future, &nodes, &nested, &standard, flow)?;
    let concrete = sets_of_points(alloc, System::Concrete, &nodes, &nested, &whole, flow)?;
    Ok(Effects {
        prior,
        future,
        concrete,
        standard,
    })
}
