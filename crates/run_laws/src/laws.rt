//! What one run has to do with another, each law as the contract of a call that does nothing.

ghost use Rattle.run_laws.specs.ReplayLaws.{ReplaysRepeat};
ghost use Rattle.run_laws.specs.ScheduleLaws.{SoloIsDeterministic};

use dsu_runs::rules_exist;

/// Two journals of a setup by the solo schedule agree: one begins with the other, or at their first difference one
/// withdraws an offer that the other decides.
pub fn solo_schedule_is_deterministic()
    ensures { SoloIsDeterministic }
{}

/// The replay of a journal that has the events of a run makes that run: the same output, answers, ending and report.
pub fn replays_repeat_runs()
    ensures { ReplaysRepeat }
{
    rules_exist();
}
