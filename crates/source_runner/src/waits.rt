//! What threads wait for. Nothing changes here.
ghost use Rattle.std.specs.Prelude.{◌≡◌, false, option_map};
ghost use Rattle.source_model.specs.Waits.{at_stop, held_by, joined, waits_for};
ghost use Rattle.source_model.specs.Worlds.{World, holder_of, is_over};
ghost use Rattle.source_runner.specs.Machines.{Stands};
ghost use Rattle.resolved_tree.specs.Nodes.{word};
ghost use Rattle.local_evaluation.specs.Pieces.{stop_of};
ghost use Rattle.source_programs.specs.Programs.{table_of};
ghost use Rattle.source_runner.specs.Waits.{waiting_of};
ghost use Rattle.local_evaluation.specs.Work.{newest};

use crate::machine::Machine;
use crate::thread::{Next, Slot};
use local_evaluation::stack::last;
use local_evaluation::{Halt, Stop, Value};
use resolved_tree::Word;
use source_data::holder_of;

/// What a thread waits for.
#[derive(Clone, Copy, Debug, PartialEq, Eq)]
pub enum SourceWait<'a> {
    /// A mutex of that name, which the thread in that slot holds.
    Mutex(&'a str, usize),
    /// The end of the thread in that slot.
    Thread(usize),
}

impl Machine {
    /// What the thread in a slot waits for, if it waits.
    pub(crate) fn waits(&self, slot: usize) -> Option<SourceWait<'_>>
        ensures { (w : World) → Stands self.now w → is_over w ≡ false → option_map waiting_of result ≡ waits_for w slot }
    {
        match self.slots.get(slot) {
            Some(Slot::Live(_, Next::Halt(frame, Halt::At(stop, _)))) => {
                self.waits_at(slot, *stop, frame.work.values.as_slice())
            }
            _ => None,
        }
    }

    /// What the thread in a slot waits for at a stop with these values.
    fn waits_at(&self, slot: usize, stop: Stop, values: &[Value]) -> Option<SourceWait<'_>>
        ensures { (w : World) → Stands self.now w
            → option_map waiting_of result ≡ at_stop (stop_of (table_of self.now.program) stop) w slot (newest values.now) }
    {
        match stop {
            Stop::Lock(name) => self.held_by(slot, name),
            Stop::Join => self.joined(values),
            _ => None,
        }
    }

    /// The mutex that a lock in a slot waits for: another thread holds it.
    fn held_by(&self, slot: usize, name: Word) -> Option<SourceWait<'_>>
        ensures { let name = word (table_of self.now.program) name in (w : World) → Stands self.now w
            → option_map waiting_of result ≡ held_by name slot (holder_of w name) }
    {
        let trees = self.program.trees();
        match holder_of(trees, self.store.holders.as_slice(), name) {
            Some(holder) if holder != slot => Some(SourceWait::Mutex(trees.text(name), holder)),
            _ => None,
        }
    }

    /// The thread that a join with these values waits for: it lives.
    fn joined(&self, values: &[Value]) -> Option<SourceWait<'_>>
        ensures { (w : World) → Stands self.now w → option_map waiting_of result ≡ joined w (newest values.now) }
    {
        let Some(Value::Started(Some(named))) = last(values) else {
            return None;
        };
        match self.slots.get(named.slot) {
            Some(Slot::Live(thread, _)) if thread.serial == named.serial => {
                Some(SourceWait::Thread(named.slot))
            }
            _ => None,
        }
    }
}
