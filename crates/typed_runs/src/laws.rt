//! What the first world has of types, and what moves, installs and runs keep of them, each as the contract of a call that does
//! nothing but cite what it rests on.

ghost use Rattle.typed_runs.specs.Progress.{ThreadsGoOn};
ghost use Rattle.typed_runs.specs.TypedRunLaws.{FirstWorldTyped, InstallsKeepTypes, MovesKeepTypes, RunsAreTyped};

use typed_transformers::transformed_values_are_typed;

/// The first world of an accepted text is typed.
pub fn first_worlds_are_typed()
    ensures { FirstWorldTyped }
{}

/// Each move of a typed world of accepted texts leaves a typed world: local evaluation and each stop keep the types of frames,
/// globals, arrays and objects, and an enter has them.
pub fn moves_keep_types()
    ensures { MovesKeepTypes }
{}

/// An install of an accepted text leaves a typed world, where the text's transformers have no fault. The frames that are there
/// stay typed by their own versions.
pub fn installs_keep_types()
    ensures { InstallsKeepTypes }
{
    transformed_values_are_typed();
}

/// Each world that a run of accepted texts comes to is typed.
pub fn runs_are_typed()
    ensures { RunsAreTyped }
{
    transformed_values_are_typed();
}

/// Each thread that lives in a typed world makes its next move or waits; else it stands at the end of a transaction that it isn't
/// in.
pub fn threads_go_on()
    ensures { ThreadsGoOn }
{}
