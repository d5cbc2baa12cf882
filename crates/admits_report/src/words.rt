//! Names and effects.
ghost use Rattle.std.specs.Prelude.{◌≡◌, ◌++◌, OnOk};
ghost use Rattle.dsu_io.specs.Sinks.{joined};
ghost use Rattle.name_sets.specs.Texts.{text_of};
ghost use Rattle.con_freeness.specs.Verdicts.{effect_seen};
ghost use Rattle.dsu_report.specs.Answers.{effect_words};
ghost use Rattle.admits_report.specs.AdmitsText.{answer_words};
ghost use Rattle.admits_report.specs.Shown.{answer_shown};

use con_freeness::Effect;
use name_sets::{NameId, Names};
use std::alloc::AllocError;

/// Adds pieces to a text, one after the other.
pub(crate) fn add(text: &mut Vec<u8>, pieces: &[&[u8]]) -> Result<(), AllocError>
    ensures { OnOk result (text.new.items ≡ text.old.items ++ joined pieces.now) }
{
    for piece in pieces {
        text.extend_from_slice(piece)?;
    }
    Ok(())
}

/// The bytes of a name; of one that the table doesn't have, none.
pub(crate) fn bytes_of(names: &Names, name: NameId) -> &[u8]
    ensures { result.now ≡ text_of names.now name }
{
    if name.index() < names.len() {
        names.text(name).as_bytes()
    } else {
        &[]
    }
}

/// Adds an answer.
pub(crate) fn add_answer(
    text: &mut Vec<u8>,
    names: &Names,
    answer: Option<Effect>,
) -> Result<(), AllocError>
    ensures { OnOk result (text.new.items ≡ text.old.items ++ answer_words (answer_shown names.now answer)) }
{
    match answer {
        Some(effect) => add_effect(text, names, effect),
        None => add(text, &[b"admitted"]),
    }
}

/// Adds the effect by which a row doesn't admit a patch.
fn add_effect(text: &mut Vec<u8>, names: &Names, effect: Effect) -> Result<(), AllocError>
    ensures { OnOk result (text.new.items ≡ text.old.items ++ effect_words (effect_seen names.now effect)) }
{
    match effect {
        Effect::Concrete(name) => add(text, &[b"concrete ", bytes_of(names, name)]),
        Effect::Both(prior, future) => {
            let prior = bytes_of(names, prior);
            add(text, &[b"both ", prior, b" ", bytes_of(names, future)])
        }
        Effect::Pinned(name) => add(text, &[b"pinned ", bytes_of(names, name)]),
    }
}
