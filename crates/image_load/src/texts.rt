//! The functions of all texts of a run.
ghost use Rattle.std.specs.Prelude.{◌≡◌, ◌+◌, ◌<◌, [], IfErr, IfOk, OnOk, map, length, slice_index_or};
ghost use Rattle.c_tree.specs.Bare.{bare_def};
ghost use Rattle.text_code.specs.Bodies.{body_of};
ghost use Rattle.c_semantics.specs.SourceTexts.{Text};
ghost use Rattle.frame_bodies.specs.AcceptedTexts.{IsAccepted};
ghost use Rattle.image_load.specs.declared.fault.LoadFault.TheVariants.{Memory};
ghost use Rattle.image_load.specs.Loaded.{AreAcceptedAs};
ghost use Rattle.image_load.specs.MadeTexts.{AreCompiled, AreMadeTo, code_in};
ghost use Rattle.image_load.specs.Numbering.{AreNumbers, texts_of, words_of};

use crate::body_rows::body_row;
use crate::fault::LoadFault;
use crate::functions::functions;
use crate::names::{Names, Run};
use crate::tables::small;
use accepted_code::code_of_texts_is_that_of_their_functions;
use c_definitions::Known;
use code_image::CodeFunction;
use std::alloc::Global;
use text_code::Body;

/// The functions of the first texts of a run, and for each of these texts the numbers of its functions by the numbers of their names.
#[derive(Drop)]
pub(crate) struct Made {
    pub functions: Vec<CodeFunction>,
    pub bodies: Vec<Vec<Option<u32>>>,
}

/// Those of all texts, whose functions have these bodies.
pub(crate) fn made_of(alloc: Global, run: &Run, bodies: &[Vec<Body>]) -> Result<Made, LoadFault>
    requires numbers { AreNumbers run.now }
    requires bodies { AreCompiled (words_of run.now) (texts_of run.now) (map (λ v. v.items) bodies.now) }
    ensures made { IfOk result (AreMadeTo run.now (length run.now.texts.now)) }
    ensures fault { IfErr result (λ fault. AreAcceptedAs (texts_of run.now) → fault ≡ Memory) }
{
    let mut made = Made {
        functions: Vec::new(alloc),
        bodies: Vec::new(alloc),
    };
    for number in 0..run.texts.len() {
        add_text(alloc, run, number, bodies[number].as_slice(), &mut made)?;
    }
    Ok(made)
}

/// Adds the functions of the text with a number.
fn add_text(
    alloc: Global,
    run: &Run,
    number: usize,
    bodies: &[Body],
    made: &mut Made,
) -> Result<(), LoadFault>
    requires numbers { AreNumbers run.now }
    requires within { number < length run.now.texts.now }
    requires bodies { map (body_of (words_of run.now)) bodies.now ≡ code_in (slice_index_or (texts_of run.now) number []) }
    requires made { AreMadeTo run.now number made.old }
    ensures made { OnOk result (AreMadeTo run.now (number + 1) made.new) }
    ensures fault { IfErr result (λ fault. (whole : Text) → IsAccepted whole
        → whole.definitions ≡ slice_index_or (texts_of run.now) number [] → fault ≡ Memory) }
{
    let program = run.texts[number].program();
    let known = Known::of(alloc, program.definitions.as_slice())?;
    add_known(alloc, run, number, &known, bodies, made)
}

/// The same, where the text's definitions are known.
fn add_known(
    alloc: Global,
    run: &Run,
    number: usize,
    known: &Known,
    bodies: &[Body],
    made: &mut Made,
) -> Result<(), LoadFault>
    requires numbers { AreNumbers run.now }
    requires within { number < length run.now.texts.now }
    requires known { map bare_def known.now ≡ slice_index_or (texts_of run.now) number [] }
    requires bodies { map (body_of (words_of run.now)) bodies.now ≡ code_in (map bare_def known.now) }
    requires made { AreMadeTo run.now number made.old }
    ensures made { OnOk result (AreMadeTo run.now (number + 1) made.new) }
    ensures fault { IfErr result (λ fault. (whole : Text) → IsAccepted whole → whole.definitions ≡ map bare_def known.now → fault ≡ Memory) }
{
    code_of_texts_is_that_of_their_functions();
    let names = Names { known, run: *run };
    let first = made.functions.len();
    let mut own = functions(alloc, &names, small(number)?, bodies)?;
    made.functions.append(&mut own)?;
    let row = body_row(alloc, run, made.functions.as_slice(), first)?;
    made.bodies.push(row)?;
    Ok(())
}
