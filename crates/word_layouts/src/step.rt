//! One change of an object's words.
ghost use Rattle.std.specs.Prelude.{◌≡◌, option_copied};
ghost use Rattle.word_layouts.specs.ChangedWords.{changed_words, converted_words};

use crate::change::{Conversion, WordChange};
use crate::words::{fields, words};
use object_store::MOST_FIELDS;
use versioned_structs::apply;

/// Changes the words of an object, if its struct changes.
pub(crate) fn change_words(change: Option<&WordChange>, own: &mut [u64; MOST_FIELDS])
    ensures { own.new ≡ changed_words (option_copied change.entry) own.old }
{
    match change {
        None => {}
        Some(WordChange::Zero) => *own = [0; MOST_FIELDS],
        Some(WordChange::Given(conversion)) => convert(conversion, own),
    }
}

/// Converts the words of an object.
fn convert(conversion: &Conversion, own: &mut [u64; MOST_FIELDS])
    ensures { own.new ≡ converted_words conversion.now own.old }
{
    let old = fields(conversion.kinds.as_slice(), own);
    let new = apply(&conversion.transform, &old);
    *own = words(&new);
}
