//! How many variables each place keeps where a loop begins.
ghost use Rattle.std.specs.Prelude.{◌≡◌, ◌∷◌, ℕ, suc, ◌<◌, length, vec_len, slice_get, List, Option, IfOk};
ghost use Rattle.resolved_tree.specs.Nodes.{Table};
ghost use Rattle.bytecode.specs.Instructions.{Instruction};
ghost use Rattle.bytecode.specs.Seen.{instruction_of, code_of};
ghost use Rattle.code_kinds.specs.WellFormed.{kept_from, kept};
ghost use Rattle.code_verify.specs.Seen.{keeps_of};

use crate::ways::edge;
use bytecode::Instr;
use std::alloc::{AllocError, Global};

/// So many places that keep nothing.
fn nothing(alloc: Global, places: usize) -> Result<Vec<Option<u32>>, AllocError>
    ensures length { IfOk result (λ keeps. vec_len keeps ≡ places) }
    ensures nothing { IfOk result (λ keeps. (q : ℕ) → keeps_of keeps.items q ≡ Option.None) }
{
    let mut keeps = Vec::new(alloc);
    while keeps.len() < places {
        keeps.push(None)?;
    }
    Ok(keeps)
}

/// Notes the variables that an instruction's loop keeps, if it is a back edge.
fn note(keeps: &mut Vec<Option<u32>>, place: usize, instr: Instr)
    requires { place < vec_len keeps.old }
    ensures length { vec_len keeps.new ≡ vec_len keeps.old }
    ensures keeps { (t : Table) (after : List Instruction) (q : ℕ) → q < vec_len keeps.old
        → keeps_of keeps.old.items q ≡ kept_from after (suc place) q
        → keeps_of keeps.new.items q ≡ kept_from (instruction_of t instr ∷ after) place q }
{
    if let Some((distance, variables)) = edge(instr) {
        let distance = distance as usize;
        if distance <= place {
            keeps[place - distance] = Some(variables);
        }
    }
}

/// The instruction at a place.
pub(crate) fn instruction_at(code: &[Instr], place: usize) -> Instr
    requires { place < length code.now }
    ensures { (t : Table) → slice_get (code_of t code.now) place ≡ Option.Some (instruction_of t result) }
{
    code[place]
}

/// How many variables each place keeps: as many as the first back edge says that leads there.
pub(crate) fn keeps(alloc: Global, code: &[Instr]) -> Result<Vec<Option<u32>>, AllocError>
    ensures length { IfOk result (λ keeps. vec_len keeps ≡ length code.now) }
    ensures keeps { IfOk result (λ keeps. (t : Table) (q : ℕ) → q < length code.now → keeps_of keeps.items q ≡ kept (code_of t code.now) q) }
{
    let mut keeps = nothing(alloc, code.len())?;
    let mut place = code.len();
    while place > 0 {
        place -= 1;
        note(&mut keeps, place, instruction_at(code, place));
    }
    Ok(keeps)
}
