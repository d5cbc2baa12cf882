//! What is known of runs of code, as the contract of a call that does nothing.
ghost use Rattle.code_run_laws.specs.MoveLaws.{CodeInstallsAlike, CodeMovesAlike, CodeStartsAlike, CodeStaysAlike, CodeWaitsAlike};

/// Each move of code is the source machine's move of the same thread: it prints the same, and what code has then stands for the world
/// after it. A thread of code waits for what that of the source machine waits for, and where the code can't move, neither can the source
/// machine. After an install, which leaves all objects as they are, code stands for the world after it. The start of a run of code
/// stands for the first world.
pub fn code_moves_as_the_source_machine()
    ensures moves { CodeMovesAlike }
    ensures waits { CodeWaitsAlike }
    ensures stays { CodeStaysAlike }
    ensures installs { CodeInstallsAlike }
    ensures starts { CodeStartsAlike }
{}
