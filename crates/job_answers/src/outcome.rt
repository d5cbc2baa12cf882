ghost use Rattle.std.specs.Prelude.{◌≡◌, [], None};

use name_sets::Names;
use run_types::{Ending, Event};
use source_model::OfferAnswer;
use std::alloc::Global;

/// The version in force at the end of a run.
#[derive(Drop)]
pub struct InForce {
    /// Its number; the text with which the run starts is version 1. Its text is that of the offer that was answered with this
    /// number, or else the first one.
    pub version: u32,
    /// The texts for which the ids in the answers stand.
    pub names: Names,
}

/// What a command came to.
#[derive(Drop)]
pub struct Outcome<O> {
    /// The status with which the program ends.
    pub status: u8,
    /// Standard output, given back.
    pub out: O,
    /// The events of the run.
    pub history: Vec<Event>,
    /// How the run ended, where it ended and its report was written.
    pub ending: Option<Ending>,
    /// Where there is an ending, the answer to each offer, in the order of the words; otherwise it is empty.
    pub answers: Vec<OfferAnswer>,
    /// Where there is an ending, the version in force then.
    pub installed: Option<InForce>,
}

/// What a call came to that hands back no ending.
pub fn without_end<O>(alloc: Global, status: u8, out: O, history: Vec<Event>) -> Outcome<O>
    ensures status { result.status ≡ status }
    ensures out { result.out ≡ out }
    ensures history { result.history ≡ history }
    ensures ending { result.ending ≡ None }
    ensures answers { result.answers.items ≡ [] }
    ensures installed { result.installed ≡ None }
{
    Outcome {
        status,
        out,
        history,
        ending: None,
        answers: Vec::new(alloc),
        installed: None,
    }
}
