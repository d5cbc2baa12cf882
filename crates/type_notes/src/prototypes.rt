//! What is wrong with a prototype.
use crate::draft::Draft;
use crate::words::{say_result, say_type};
use c_definitions::{Known, Meaning, defined};
use c_expr_types::same;
use c_tree::{Binding, CType, Function, Parameters, Prototype};

/// Says how a prototype differs from what the text defines under its name.
pub(crate) fn say_prototype(draft: &mut Draft, known: &Known, prototype: &Prototype) {
    let name = prototype.name.text.as_str();
    match defined(known, name) {
        Some(Meaning::Function(function)) => say_difference(draft, function, prototype),
        Some(_) => {
            draft.word(name);
            draft.say(" is declared here as a function, and defined as something else");
        }
        None => {
            draft.word(name);
            draft.say(" is declared here and never defined");
        }
    }
}

/// Says the first difference between a function and its prototype.
fn say_difference(draft: &mut Draft, function: &Function, prototype: &Prototype) {
    let own = function.parameters.as_slice();
    let count = count_of(&prototype.parameters);
    draft.word(function.name.text.as_str());
    if !is_same_result(&function.result, &prototype.result) {
        say_results(draft, &function.result, &prototype.result);
    } else if own.len() != count {
        say_counts(draft, own.len(), count);
    } else {
        say_parameters(draft, own, &prototype.parameters);
    }
}

/// Says which result a function has, and which its prototype.
fn say_results(draft: &mut Draft, own: &Option<CType>, listed: &Option<CType>) {
    draft.say(" returns ");
    say_result(draft, own);
    draft.say(" in its definition, and ");
    say_result(draft, listed);
    draft.say(" here");
}

/// Says how many parameters a function has, and how many its prototype.
fn say_counts(draft: &mut Draft, own: usize, listed: usize) {
    draft.say(" has ");
    draft.count(own, "parameter");
    draft.say(" in its definition, and ");
    draft.number(listed);
    draft.say(" here");
}

/// The number of the first parameter that has another type, counted from 0.
fn other_parameter(own: &[Binding], listed: &Parameters) -> Option<usize> {
    for number in 0..own.len() {
        if let Some(declared) = type_at(listed, number) {
            if !same(&own[number].declared, declared) {
                return Some(number);
            }
        }
    }
    None
}

/// Says which parameter is the first that has another type.
fn say_parameters(draft: &mut Draft, own: &[Binding], listed: &Parameters) {
    let Some(number) = other_parameter(own, listed) else {
        return draft.say(" has other types in its definition");
    };
    if let (Some(binding), Some(declared)) = (own.get(number), type_at(listed, number)) {
        draft.say(": parameter ");
        draft.number(number.saturating_add(1));
        draft.say(" is ");
        say_type(draft, &binding.declared);
        draft.say(" in its definition, and ");
        say_type(draft, declared);
        draft.say(" here");
    }
}

/// Whether two results are of one type.
fn is_same_result(a: &Option<CType>, b: &Option<CType>) -> bool {
    match (a, b) {
        (Some(a), Some(b)) => same(a, b),
        (None, None) => true,
        _ => false,
    }
}

/// How many parameters are listed.
fn count_of(listed: &Parameters) -> usize {
    match listed {
        Parameters::Named(bindings) => bindings.as_slice().len(),
        Parameters::Unnamed(types) => types.as_slice().len(),
    }
}

/// The type of a listed parameter.
fn type_at(listed: &Parameters, number: usize) -> Option<&CType> {
    match listed {
        Parameters::Named(bindings) => {
            let binding = bindings.as_slice().get(number)?;
            Some(&binding.declared)
        }
        Parameters::Unnamed(types) => types.as_slice().get(number),
    }
}
