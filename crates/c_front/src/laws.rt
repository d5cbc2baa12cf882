ghost use Rattle.c_front.specs.Laws.{FaultsWithinTexts};

/// The place of a text's first fault is a byte of the text, or its end.
pub fn faults_are_within_their_texts()
    ensures { FaultsWithinTexts }
{}
