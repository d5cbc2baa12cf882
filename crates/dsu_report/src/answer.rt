//! What was answered to offers.
ghost use Rattle.std.specs.Prelude.{◌≡◌, ◌<◌, ◌++◌, ◌+◌, ◌-◌, [], codes, get_or, length, map};
ghost use Rattle.std.specs.Fmt.{decimal};
ghost use Rattle.name_sets.specs.Texts.{text_of};
ghost use Rattle.con_freeness.specs.Verdicts.{effect_seen, refusal_seen};
ghost use Rattle.source_model.specs.Answers.{answer_seen};
ghost use Rattle.dsu_io.specs.Causes.{HasCause};
ghost use Rattle.dsu_io.specs.Sinks.{PutAppends};
ghost use Rattle.dsu_report.specs.Answers.{answer_line, answer_words, answers_text, cause_words, effect_words};
ghost use Rattle.dsu_report.specs.Places.{line_at, column_at};

use crate::place::line_and_column;
use con_freeness::{Effect, Refusal};
use dsu_io::{Failed, List, Sink, put, put_all};
use itoa::Buffer;
use name_sets::{NameId, Names};
use source_model::{NotPatch, OfferAnswer};

/// Writes a line for each answer, in the order of the offers. `texts` has the bytes of the texts that were offered, in that
/// order, and `names` the texts for which the ids in the answers stand. It takes no memory.
pub fn write_answers<S: Sink>(
    answers: &[OfferAnswer],
    texts: &[List<u8>],
    names: &Names,
    sink: &mut S,
) -> Result<(), Failed>
    ensures bytes { PutAppends (S.told sink.old) (S.told sink.new) result
        (answers_text (map (answer_seen names.now) answers.now) texts.now) }
    ensures cause { HasCause (S.faults sink.old) (S.faults sink.new) result }
{
    for at in 0..answers.len() {
        write_answer(at + 1, &answers[at], text_at(texts, at), names, sink)?;
    }
    Ok(())
}

/// The text at a place; where there is none, an empty one.
fn text_at(texts: &[List<u8>], at: usize) -> &[u8]
    ensures { result.now ≡ get_or texts.now at [] }
{
    match texts.get(at) {
        Some(text) => text.as_slice(),
        None => &[],
    }
}

/// Writes the line of an offer.
fn write_answer<S: Sink>(
    number: usize,
    answer: &OfferAnswer,
    text: &[u8],
    names: &Names,
    sink: &mut S,
) -> Result<(), Failed>
    ensures bytes { PutAppends (S.told sink.old) (S.told sink.new) result
        (answer_line number (answer_seen names.now answer.now) text.now) }
    ensures cause { HasCause (S.faults sink.old) (S.faults sink.new) result }
{
    write_unended(number, answer, text, names, sink)?;
    put(sink, b"\n")
}

/// Writes the line of an offer without its newline.
fn write_unended<S: Sink>(
    number: usize,
    answer: &OfferAnswer,
    text: &[u8],
    names: &Names,
    sink: &mut S,
) -> Result<(), Failed>
    ensures bytes { PutAppends (S.told sink.old) (S.told sink.new) result
        (codes "# offer " ++ decimal number ++ codes " " ++ answer_words (answer_seen names.now answer.now) text.now) }
    ensures cause { HasCause (S.faults sink.old) (S.faults sink.new) result }
{
    write_number(number, sink)?;
    write_words(answer, text, names, sink)
}

/// Writes how the line of an offer begins.
fn write_number<S: Sink>(number: usize, sink: &mut S) -> Result<(), Failed>
    ensures bytes { PutAppends (S.told sink.old) (S.told sink.new) result (codes "# offer " ++ decimal number ++ codes " ") }
    ensures cause { HasCause (S.faults sink.old) (S.faults sink.new) result }
{
    let mut digits = Buffer::new();
    put_all(sink, &[b"# offer ", digits.format(number).as_bytes(), b" "])
}

/// Writes what was answered.
fn write_words<S: Sink>(
    answer: &OfferAnswer,
    text: &[u8],
    names: &Names,
    sink: &mut S,
) -> Result<(), Failed>
    ensures bytes { PutAppends (S.told sink.old) (S.told sink.new) result
        (answer_words (answer_seen names.now answer.now) text.now) }
    ensures cause { HasCause (S.faults sink.old) (S.faults sink.new) result }
{
    match answer {
        OfferAnswer::Installed(version) => write_version(*version, sink),
        OfferAnswer::Refused(refusal) => write_refusal(refusal, names, sink),
        OfferAnswer::NotPatch(cause) => write_cause(cause, text, sink),
        OfferAnswer::Withdrawn => put(sink, b"withdrawn"),
        OfferAnswer::NotOffered => put(sink, b"not offered"),
    }
}

/// Writes as which version an offer was installed.
fn write_version<S: Sink>(version: u32, sink: &mut S) -> Result<(), Failed>
    ensures bytes { PutAppends (S.told sink.old) (S.told sink.new) result (codes "installed as version " ++ decimal version) }
    ensures cause { HasCause (S.faults sink.old) (S.faults sink.new) result }
{
    let mut digits = Buffer::new();
    put_all(
        sink,
        &[b"installed as version ", digits.format(version).as_bytes()],
    )
}

/// Writes why a patch was refused.
fn write_refusal<S: Sink>(refusal: &Refusal, names: &Names, sink: &mut S) -> Result<(), Failed>
    ensures bytes { let r = refusal_seen names.now refusal.now in PutAppends (S.told sink.old) (S.told sink.new) result
        (codes "refused: thread " ++ decimal r.slot ++ codes " " ++ effect_words r.effect) }
    ensures cause { HasCause (S.faults sink.old) (S.faults sink.new) result }
{
    write_thread(refusal.slot, sink)?;
    write_effect(refusal.effect, names, sink)
}

/// Writes that a thread's row refused a patch.
fn write_thread<S: Sink>(slot: u8, sink: &mut S) -> Result<(), Failed>
    ensures bytes { PutAppends (S.told sink.old) (S.told sink.new) result
        (codes "refused: thread " ++ decimal slot ++ codes " ") }
    ensures cause { HasCause (S.faults sink.old) (S.faults sink.new) result }
{
    let mut digits = Buffer::new();
    put_all(
        sink,
        &[b"refused: thread ", digits.format(slot).as_bytes(), b" "],
    )
}

/// Writes the effect by which a row refused a patch.
fn write_effect<S: Sink>(effect: Effect, names: &Names, sink: &mut S) -> Result<(), Failed>
    ensures bytes { PutAppends (S.told sink.old) (S.told sink.new) result
        (effect_words (effect_seen names.now effect)) }
    ensures cause { HasCause (S.faults sink.old) (S.faults sink.new) result }
{
    match effect {
        Effect::Concrete(name) => put_all(sink, &[b"concrete ", bytes_of(names, name)]),
        Effect::Both(prior, future) => {
            put_all(
                sink,
                &[
                    b"both ",
                    bytes_of(names, prior),
                    b" ",
                    bytes_of(names, future),
                ],
            )
        }
        Effect::Pinned(name) => put_all(sink, &[b"pinned ", bytes_of(names, name)]),
    }
}

/// The bytes of a name; of one that the table doesn't have, none.
fn bytes_of(names: &Names, name: NameId) -> &[u8]
    ensures { result.now ≡ text_of names.now name }
{
    if name.index() < names.len() {
        names.text(name).as_bytes()
    } else {
        &[]
    }
}

/// Writes why a text is no patch.
fn write_cause<S: Sink>(cause: &NotPatch, text: &[u8], sink: &mut S) -> Result<(), Failed>
    ensures bytes { PutAppends (S.told sink.old) (S.told sink.new) result
        (codes "not a patch: " ++ cause_words cause.now text.now) }
    ensures cause { HasCause (S.faults sink.old) (S.faults sink.new) result }
{
    match cause {
        NotPatch::Versions => put(sink, b"not a patch: versions"),
        NotPatch::Names => put(sink, b"not a patch: names"),
        NotPatch::Kind(name) => write_kind(name.as_str(), sink),
        NotPatch::Transform(at) => write_place(text, *at, sink),
        NotPatch::StoreFull => put(sink, b"not a patch: store full"),
    }
}

/// Writes which name is of another kind.
fn write_kind<S: Sink>(name: &str, sink: &mut S) -> Result<(), Failed>
    ensures bytes { PutAppends (S.told sink.old) (S.told sink.new) result (codes "not a patch: kind " ++ name.now) }
    ensures cause { HasCause (S.faults sink.old) (S.faults sink.new) result }
{
    put_all(sink, &[b"not a patch: kind ", name.as_bytes()])
}

/// Writes the place of a transformer's fault.
fn write_place<S: Sink>(text: &[u8], at: usize, sink: &mut S) -> Result<(), Failed>
    ensures bytes { PutAppends (S.told sink.old) (S.told sink.new) result
        (codes "not a patch: transform " ++ decimal (line_at text.now at) ++ codes ":" ++ decimal (column_at text.now at)) }
    ensures cause { HasCause (S.faults sink.old) (S.faults sink.new) result }
{
    let (line, column) = line_and_column(text, at);
    let mut lines = Buffer::new();
    let mut columns = Buffer::new();
    let line = lines.format(line).as_bytes();
    let column = columns.format(column).as_bytes();
    put_all(sink, &[b"not a patch: transform ", line, b":", column])
}
