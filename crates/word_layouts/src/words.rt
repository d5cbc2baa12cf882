//! Words as values, and back.
ghost use Rattle.std.specs.Prelude.{◌≡◌, ◌≤◌, length, map};
ghost use Rattle.std.specs.Option.{option_map};
ghost use Rattle.c_ints.specs.Number.{number as number_of, value_of};
ghost use Rattle.local_evaluation.specs.Values.{seen, seen_object, seen_thread};
ghost use Rattle.bytecode.specs.Words.{integer_word, number_at, word_of};
ghost use Rattle.versioned_structs.specs.Limits.{most_fields};
ghost use Rattle.word_layouts.specs.WordValues.{by_word, object_words, read_word, read_words, thread_of, unless_zero};

use c_ints::{Int, Kind, convert};
use constant_values::ValueKind;
use local_evaluation::{ObjectId, ThreadRef, Value};
use object_store::MOST_FIELDS;
use versioned_structs::Fields;

/// The value of a kind that a word is read as: each object and each thread is named by its word.
pub(crate) fn read(kind: ValueKind, word: u64) -> Value
    ensures { seen result ≡ read_word kind word }
{
    match kind {
        ValueKind::Number(kind) => Value::Number(number(kind, word)),
        ValueKind::Reference => Value::Reference(object(word)),
        ValueKind::Thread => Value::Started(thread(word)),
    }
}

/// The integer of a kind that a word is read as.
fn number(kind: Kind, word: u64) -> Int
    ensures { result ≡ number_of kind (number_at kind word) }
{
    convert(Int::U64(word), kind)
}

/// The object that a word names; 0 is null.
fn object(word: u64) -> Option<ObjectId>
    ensures { seen_object result ≡ unless_zero word }
{
    if word == 0 {
        None
    } else {
        Some(ObjectId(word as usize))
    }
}

/// The thread that a word names; 0 names none.
fn thread(word: u64) -> Option<ThreadRef>
    ensures { option_map seen_thread result ≡ option_map thread_of (unless_zero word) }
{
    if word == 0 {
        None
    } else {
        Some(ThreadRef {
            slot: 0,
            serial: word as usize,
        })
    }
}

/// The word of a value that was read from words.
pub(crate) fn word(value: Value) -> u64
    ensures { result ≡ word_of by_word (seen value) }
{
    match value {
        Value::Number(n) => integer(n),
        Value::Reference(None) | Value::Started(None) => 0,
        Value::Reference(Some(object)) => object.0 as u64,
        Value::Started(Some(thread)) => thread.serial as u64,
    }
}

/// The word of an integer.
fn integer(n: Int) -> u64
    ensures { result ≡ integer_word (value_of n) }
{
    n.value().rem_euclid(0x1_0000_0000_0000_0000) as u64
}

/// The fields that the first words of an object are read as.
pub(crate) fn fields(kinds: &[ValueKind], words: &[u64; MOST_FIELDS]) -> Fields
    requires { length kinds.now ≤ most_fields }
    ensures { map seen result ≡ read_words kinds.now words.now }
{
    let mut fields = Fields::new();
    for place in 0..kinds.len() {
        fields.push(read(kinds[place], words[place]));
    }
    fields
}

/// The words of an object with these fields.
pub(crate) fn words(fields: &Fields) -> [u64; MOST_FIELDS]
    ensures { result ≡ object_words (map seen fields.now) }
{
    let values = fields.as_slice();
    let mut words = [0; MOST_FIELDS];
    for place in 0..values.len() {
        words[place] = word(values[place]);
    }
    words
}
