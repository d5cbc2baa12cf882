ghost use Rattle.std.specs.Prelude.{◌≡◌, [], ◌⊎◌, Some, IfOk, IfErr, codes, option_map};
ghost use Rattle.c_expr_types.specs.declared.fault.Fault.{Fault as AFault};
ghost use Rattle.c_expr_types.specs.declared.fault.TypeFault.TheVariants.{Refused, Memory};
ghost use Rattle.c_types.specs.Definitions.{Types, all_faults, defines_main, first_fault, is_main, main_faults, name_place, names_of};
ghost use Rattle.c_expr_types.specs.Faults.{first};
ghost use Rattle.c_definitions.specs.Lookup.{definition_of, name_of};
ghost use Rattle.c_types.specs.Statements.{hiding};
ghost use Rattle.c_definitions.specs.Views.{meaning_seen};

use crate::context::{Context, more_cells, name_added};
use crate::definition::kind_fault;
use crate::statement::hiding;
use c_definitions::{Known, Meaning, meaning_in, name_of};
use c_expr_types::{Fault, TypeFault, TypeKind, same, sooner, unless};
use c_ints::Kind;
use c_tree::{CType, DefKind, Program};
use std::alloc::{AllocError, Global};
use std::marker::Model;

/// A text whose types are right. It is seen as its tree.
#[derive(Drop)]
pub struct Typed {
    program: Program,
    /// How many names its definitions have.
    names: usize,
}

impl Model for Typed {
    ghost use Rattle.std.specs.Coded.{codes};
    ghost use Rattle.c_tree.specs.declared.def.Program.{Program};
    ghost use Rattle.c_tree.specs.contracts.def.Program as whole;
    ghost use Rattle.std.specs.Prelude.{◌≡◌};
    ghost use Rattle.c_types.specs.Definitions.{Types, names_of};

    ghost Value = { Program };

    ghost coded = { Prim.hlevel (codes, whole.the_row.coded) };

    ghost view = { λ t. t.program };

    ghost invariant = { λ t. Types t.program × (t.names ≡ names_of t.program.definitions) };
}

unsafe impl Send for Typed {}

unsafe impl Sync for Typed {}

impl Typed {
    /// The tree.
    pub fn program(&self) -> &Program
        ensures tree { result.now ≡ self.now }
        ensures typed { Types result.now }
    {
        &self.program
    }

    /// How many names it has: those of its functions, globals, arrays, mutexes and structs.
    pub fn names(&self) -> usize
        ensures { result ≡ names_of self.now.definitions }
    {
        self.names
    }
}

/// What is found in a text.
#[derive(Drop)]
struct Findings {
    /// Its first fault.
    fault: Option<Fault>,
    /// How many names its definitions have.
    names: usize,
}

/// Whether `int main(void)` is meant.
fn is_main(meaning: &Option<Meaning>) -> bool
    ensures { result ≡ is_main (option_map meaning_seen meaning.now) }
{
    let Some(Meaning::Function(function)) = meaning else {
        return false;
    };
    let Some(declared) = &function.result else {
        return false;
    };
    match function.parameters.as_slice() {
        [] => same(&CType::Integer(Kind::I32), declared),
        _ => false,
    }
}

/// Whether a definition is that of `int main(void)`, but for its name.
fn defines_main(kind: &DefKind) -> bool
    ensures { result ≡ defines_main kind.now }
{
    is_main(&meaning_in(kind))
}

/// The place of the name that a definition declares, or the end of the text.
fn name_place(end: usize, kind: &DefKind) -> usize
    ensures { result ≡ name_place end (name_of kind.now) }
{
    match name_of(kind) {
        Some(name) => name.place,
        None => end,
    }
}

/// The fault of a text without `int main(void)`.
fn main_fault(known: &Known, end: usize) -> Option<Fault>
    ensures { result ≡ first (main_faults end (definition_of known.now (codes "main"))) }
{
    match known.definition_of("main") {
        Some(definition) => unless(
            defines_main(&definition.kind),
            TypeKind::NoMain,
            name_place(end, &definition.kind),
        ),
        None => unless(false, TypeKind::NoMain, end),
    }
}

/// The first fault of the definitions of a text, and how many names they have.
fn examine_definitions(alloc: Global, known: &Known) -> Result<Findings, AllocError>
    ensures fault { IfOk result (λ found. found.fault ≡ first (all_faults known.now [] known.now)) }
    ensures names { IfOk result (λ found. found.names ≡ names_of known.now) }
{
    let definitions = known.definitions();
    let mut fault = None;
    let mut names = 0;
    let mut cells = 0;
    for index in 0..definitions.len() {
        let definition = &definitions[index];
        names += name_added(known, index, &definition.kind);
        cells = more_cells(cells, &definition.kind);
        let context = Context {
            known,
            index,
            definition,
            names,
            cells,
        };
        fault = sooner(fault, kind_fault(alloc, &context)?);
    }
    Ok(Findings { fault, names })
}

/// What is found in a text with an end: faults of its definitions hide that of `main`.
#[tactic(auto, using(crate::proofs::Hiding::first_hiding))]
fn examine_text(alloc: Global, known: &Known, end: usize) -> Result<Findings, AllocError>
    ensures fault { IfOk result (λ found. found.fault
        ≡ first (hiding (all_faults known.now [] known.now) (main_faults end (definition_of known.now (codes "main"))))) }
    ensures names { IfOk result (λ found. found.names ≡ names_of known.now) }
{
    let parts = examine_definitions(alloc, known)?;
    Ok(Findings {
        fault: hiding(parts.fault, main_fault(known, end)),
        names: parts.names,
    })
}

/// What is found in a text.
fn examine(alloc: Global, program: &Program) -> Result<Findings, AllocError>
    ensures fault { IfOk result (λ found. found.fault ≡ first_fault program.now) }
    ensures names { IfOk result (λ found. found.names ≡ names_of program.now.definitions) }
{
    let known = Known::of(alloc, program.definitions.as_slice())?;
    examine_text(alloc, &known, program.end)
}

/// Checks the types and limits of a text (6.5 to 6.9). It is refused with the fault whose place is least, and among those
/// at one place with the one that `TypeKind` lists first; a fault of a part hides those of the whole.
pub fn check(alloc: Global, program: Program) -> Result<Typed, TypeFault>
    ensures typed { IfOk result (λ typed. Types program × (typed ≡ program)) }
    ensures told { IfErr result (λ fault. (fault ≡ Memory) ⊎ ((f : AFault) × (first_fault program ≡ Some f) × (fault ≡ Refused f.kind f.place))) }
{
    let Ok(found) = examine(alloc, &program) else {
        return Err(TypeFault::Memory);
    };
    match found.fault {
        None => Ok(Typed {
            program,
            names: found.names,
        }),
        Some(fault) => Err(TypeFault::Refused(fault.kind, fault.place)),
    }
}
