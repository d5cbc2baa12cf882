//! Which texts have a first version, as the contract of a call that does nothing.
ghost use Rattle.installed_versions.specs.Firsts.{AcceptedProgramsStart};

/// An accepted program has a first version, unless memory runs out.
pub fn accepted_programs_start()
    ensures { AcceptedProgramsStart }
{}
