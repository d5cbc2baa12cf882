//! What is known of runs of code with installs, each as the contract of a call that does nothing but cite what it rests on.
ghost use Rattle.code_install_laws.specs.InstalledTexts.{AcceptedTextsAreCoded, InstallsStand, JournalInstallsStand, JournalsStand, PatchesStand};
ghost use Rattle.code_install_laws.specs.UsedNames.{FieldsStayAtTheirPlaces, JournalsUseWell, UsedNamesStay};

use accepted_code::accepted_functions_have_fine_code;
use accepted_runs::accepted_runs_misuse_nothing;
use code_run_laws::code_moves_as_the_source_machine;
use typed_journals::journals_are_typed;
use typed_transformers::transformed_values_are_typed;

/// The functions of an accepted text have typed bodies, code whose constants are words, and room for their variables.
pub fn accepted_texts_are_coded()
    ensures { AcceptedTextsAreCoded }
{
    accepted_functions_have_fine_code();
}

/// In each world that a legal journal of accepted texts comes to, code that matches it stands for it, if the names of the versions are
/// numbered.
pub fn journals_stand()
    ensures { JournalsStand }
{
    accepted_texts_are_coded();
    journals_are_typed();
}

/// After the install of a newer text code stands for the world after it: where the text follows the last one well, where it is a
/// patch for the versions that a legal journal of accepted texts came to, and where that journal installs it next.
pub fn installs_stand()
    ensures follows { InstallsStand }
    ensures patches { PatchesStand }
    ensures journals { JournalInstallsStand }
{
    accepted_texts_are_coded();
    code_moves_as_the_source_machine();
    transformed_values_are_typed();
}

/// Along a legal journal of accepted texts no move of a thread that isn't at a check-in misuses a definition.
pub fn journals_use_well()
    ensures { JournalsUseWell }
{
    accepted_runs_misuse_nothing();
}

/// Where the move of a thread misuses nothing, what the thread uses next has in the last text the interface that it has in the text of
/// the thread's version, so a struct whose field it uses has the same fields in the same order.
pub fn used_names_stay()
    ensures names { UsedNamesStay }
    ensures fields { FieldsStayAtTheirPlaces }
{
    code_moves_as_the_source_machine();
}
