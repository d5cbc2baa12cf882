use std::marker::Brand;

/// What workers begin with, for contracts alone. The call that makes the lock picks it.
pub trait Opening {
    ghost use Rattle.threaded_vm.specs.Opened.{Opened};

    ghost opened: { Opened };
}

impl Opening for Brand {
    ghost use Rattle.std.specs.Prelude.{[], None};

    ghost opened = { record { history = []; at = λ _ _. ⊥; told = None; faults = 0; left = 0; room = 0 } };
}
