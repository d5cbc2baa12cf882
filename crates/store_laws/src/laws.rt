//! The laws.
ghost use Rattle.store_laws.specs.HandleLaws.{CreationDistinguishes, CreationsFailAlike, HandlesDistinguish, LeadsAlike};
ghost use Rattle.store_laws.specs.LockLaws.{ForgetAgrees, InitAgrees, LockAgrees, StartAgrees, UnlockAgrees};

/// Each call on a mutex comes to what the stop of the source machine comes to, with the same holders after it.
pub fn locks_are_those_of_the_machine()
    ensures start { StartAgrees }
    ensures locked { LockAgrees }
    ensures unlocked { UnlockAgrees }
    ensures initialised { InitAgrees }
    ensures forgotten { ForgetAgrees }
{}

/// Handles are words that tell objects apart, also those that were ended. Creations fail, and handles lead nowhere, exactly
/// where the source machine gives null and traps.
pub fn handles_are_words_of_objects()
    ensures apart { HandlesDistinguish }
    ensures created { CreationDistinguishes }
    ensures full { CreationsFailAlike }
    ensures leads { LeadsAlike }
{}
