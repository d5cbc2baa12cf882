//! The start of a run.
ghost use Rattle.std.specs.Prelude.{◌≡◌, ◌-◌, ◌∷◌, [], Bool, codes, replicate, IfOk};
ghost use Rattle.c_semantics.specs.Threads.{started};
ghost use Rattle.source_model.specs.Worlds.{first_world, main_enter, Live as IsLive};
ghost use Rattle.source_runner.specs.declared.thread.Slot.TheVariants.{Free as FreeSlot};
ghost use Rattle.source_runner.specs.Machines.{IsSlot, Stands};
ghost use Rattle.resolved_tree.specs.Nodes.{Table, word};
ghost use Rattle.source_programs.specs.Programs.{ArePrograms, table_of, text_at, versions_of};

use crate::machine::Machine;
use crate::thread::{Enter, Next, Slot, Thread};
use resolved_tree::Word;
use source_data::{Objects, Store};
use source_programs::Programs;
use std::alloc::{AllocError, Global};

/// The thread of main.
fn main_slot(alloc: Global, main: Word) -> Slot
    ensures { (t : Table) (over : Bool) → word t main ≡ codes "main" → IsSlot t over result (IsLive (started 0 main_enter)) }
{
    Slot::Live(
        Thread {
            serial: 0,
            below: Vec::new(alloc),
            depth: 0,
        },
        Next::Enter(Enter {
            function: main,
            arguments: Vec::new(alloc),
            version: 1,
        }),
    )
}

/// So many slots, the first of which is given and the others of which are free; at least one.
fn slots_of(alloc: Global, first: Slot, count: usize) -> Result<Vec<Slot>, AllocError>
    ensures { IfOk result (λ slots. slots.items ≡ first ∷ replicate (count - 1) FreeSlot) }
{
    let mut slots = Vec::new(alloc);
    slots.push(first)?;
    for _ in 1..count {
        slots.push(Slot::Free)?;
    }
    Ok(slots)
}

/// The start of a run of the first of some texts, where so many objects may live in so many slots.
pub(crate) fn start(
    alloc: Global,
    program: Programs,
    objects: usize,
    slots: usize,
) -> Result<Machine, AllocError>
    ensures program { IfOk result (λ m. m.program ≡ program) }
    ensures stands { ArePrograms program → versions_of program ≡ text_at program 0 ∷ []
        → IfOk result (λ m. Stands m (first_world (text_at program 0) (record { objects = objects; slots = slots }))) }
{
    let globals = program.globals_in(alloc, 0)?;
    let slots = slots_of(alloc, main_slot(alloc, program.main()), slots)?;
    Ok(Machine {
        program,
        store: Store {
            globals,
            objects: Objects {
                all: Vec::new(alloc),
                live: 0,
            },
            capacity: objects,
            holders: Vec::new(alloc),
            output: Vec::new(alloc),
        },
        slots,
        threads: 1,
        misused: false,
        finish: None,
    })
}
