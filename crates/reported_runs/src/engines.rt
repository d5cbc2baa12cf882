//! Which engine makes a run.
ghost use Rattle.std.specs.Prelude.{◌≡◌, ◌∷◌, [], Ok, IfOk, map};
ghost use Rattle.c_semantics.specs.SourceTexts.{text_of};
ghost use Rattle.source_programs.specs.Programs.{text_in};
ghost use Rattle.frame_bodies.specs.AcceptedTexts.{IsAccepted};
ghost use Rattle.image_load.specs.Loaded.{HasFewNames};

use crate::offers::Offers;
use c_types::Typed;
use dsu_cli::EngineKind;
use image_load::{accepted_text_has_few_names, has_few_names};
use std::alloc::{AllocError, Global};

/// The engine that makes a run of an accepted text with some offers: the one that was asked for, but the plain one where not all
/// names of the texts have numbers in code.
pub fn engine_for(
    alloc: Global,
    asked: EngineKind,
    program: &Typed,
    offers: &Offers,
) -> Result<EngineKind, AllocError>
    requires accepted { IsAccepted (text_of program.now) }
    ensures named { IfOk result (λ kind. kind ≡ EngineKind.Compiled
        → HasFewNames (map text_in (program.now ∷ offers.now.programs.items))) }
    ensures asked { HasFewNames (map text_in (program.now ∷ offers.now.programs.items)) → IfOk result (λ kind. kind ≡ asked) }
    ensures alone { offers.now.programs.items ≡ [] → result ≡ Ok asked }
{
    match asked {
        EngineKind::Compiled => by_code(alloc, program, offers.programs.as_slice()),
        EngineKind::Plain => Ok(EngineKind::Plain),
    }
}

/// The compiled engine, where all names of an accepted text and of some offers have numbers in code; otherwise the plain one. Those
/// of the text alone have, so they are counted where there are offers.
fn by_code(alloc: Global, program: &Typed, offers: &[Typed]) -> Result<EngineKind, AllocError>
    requires accepted { IsAccepted (text_of program.now) }
    ensures named { IfOk result (λ kind. kind ≡ EngineKind.Compiled → HasFewNames (map text_in (program.now ∷ offers.now))) }
    ensures asked { HasFewNames (map text_in (program.now ∷ offers.now)) → IfOk result (λ kind. kind ≡ EngineKind.Compiled) }
    ensures alone { offers.now ≡ [] → result ≡ Ok EngineKind.Compiled }
{
    accepted_text_has_few_names();
    if offers.is_empty() {
        return Ok(EngineKind::Compiled);
    }
    let has_few = has_few_names(alloc, program, offers)?;
    if has_few {
        Ok(EngineKind::Compiled)
    } else {
        Ok(EngineKind::Plain)
    }
}
