//! The install of a newer text.
ghost use Rattle.std.specs.Prelude.{◌≡◌, ◌<◌, ◌∷◌, [], ◌++◌, OnErr, OnOk, length};
ghost use Rattle.source_model.specs.Installs.{installed};
ghost use Rattle.source_model.specs.Worlds.{World};
ghost use Rattle.source_programs.specs.Programs.{table_of, text_at, trees_of, versions_of};
ghost use Rattle.source_runner.specs.Machines.{Stands};
ghost use Rattle.source_install.specs.NewData.{IsInstall};

use crate::machine::Machine;
use source_install::prepare;
use std::alloc::AllocError;
use type_transformers::Change;

impl Machine {
    /// Installs the text with a number: globals, objects and mutexes become those of the new text, and threads stay as they
    /// are. Where memory runs out nothing has changed.
    pub(crate) fn follow(&mut self, number: usize, changes: &[Change]) -> Result<(), AllocError>
        requires { number < length (trees_of self.old.program) }
        ensures stands { (w : World) → Stands self.old w → IsInstall self.old.program number changes.now self.old.store w
            → OnOk result (Stands self.new (installed (text_at self.old.program number) w)) }
        ensures follows { OnOk result (versions_of self.new.program ≡ versions_of self.old.program ++ text_at self.old.program number ∷ []) }
        ensures same { (trees_of self.new.program ≡ trees_of self.old.program) × (table_of self.new.program ≡ table_of self.old.program) }
        ensures kept { self.new.slots ≡ self.old.slots }
        ensures fault { OnErr result (self.new ≡ self.old) }
    {
        let alloc = *self.slots.allocator();
        let data = prepare(alloc, &self.program, &self.store, number, changes)?;
        self.program.follow(number)?;
        data.put_into(&mut self.store);
        Ok(())
    }
}
