//! What is known of the heights of verified code, as the contracts of calls that do nothing.

ghost use Rattle.sound_code.specs.SoundLaws.{BackEdgesLeadBack, CheckInsLeadOn, EntryLeadsOn, NamesDoNotMatter, StopsLeadOn, VerifiedIsExecutable, VerifiedIsSound};

/// Verified code is sound, under its own names and under all others.
pub fn verified_code_is_sound()
    ensures sound { VerifiedIsSound }
    ensures names { NamesDoNotMatter }
    ensures bodies { VerifiedIsExecutable }
{}

/// Where a burst ended in verified code the frame has a place to go on at, whose height is known: after the entry check-in, a
/// stop, the check-in after a stop, and a back edge.
pub fn frames_go_on()
    ensures entry { EntryLeadsOn }
    ensures stops { StopsLeadOn }
    ensures check_ins { CheckInsLeadOn }
    ensures back_edges { BackEdgesLeadBack }
{}
