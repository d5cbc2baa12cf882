ghost use Rattle.std.specs.Prelude.{◌≡◌, ◌⊎◌, ◌<◌, ◌/◌, ◌∷◌, ℕ, List, [], codes, IfOk, IfErr, MatchResult, Some};
ghost use Rattle.c_tree.specs.declared.def.Program.{Program};
ghost use Rattle.dsu_report.specs.declared.fault.FaultLine.{FaultLine as Line};
ghost use Rattle.program_gen.specs.Generated.{program_text, offer_text};
ghost use Rattle.job_answers.specs.Jobs.{GeneratedFault, IsKnownProgram, KnownProgramFault};
ghost use Rattle.gen_job.specs.Parts.{IsOnlyOffer, IsTold, IsToldAt};

use c_types::Typed;
use dsu_report::FaultLine;
use input_files::{Source, TEXT_LIMIT, tree_of};
use program_gen::generate;
use reported_runs::{Offers, add_offer, no_offers};
use std::alloc::Global;

/// The names by which faults of generated texts are reported.
const PROGRAM: &str = "generated program";

const OFFER: &str = "generated offer";

/// Makes the program of a seed and a size with its offer, and reads both. A fault comes with the name of its text.
pub(crate) fn generated(
    alloc: Global,
    seed: u64,
    size: u32,
) -> Result<(Typed, Offers), (FaultLine, &'static str)>
    requires { 0 < size }
    ensures program { IfOk result (λ read. IsKnownProgram (Some (program_text seed size)) read.0) }
    ensures offer { IfOk result (λ read. IsOnlyOffer (offer_text seed size) (size / 2) read.1) }
    ensures fault { IfErr result (λ fault. (fault.0 ≡ FaultLine.Memory)
        ⊎ GeneratedFault (program_text seed size) (offer_text seed size) fault.0 fault.1.now) }
    ensures complete { (program next : Program) → IsKnownProgram (Some (program_text seed size)) program
        → IsKnownProgram (Some (offer_text seed size)) next → IfErr result (λ fault. fault.0 ≡ FaultLine.Memory) }
    ensures first { (line : Line) (file : List ℕ) → GeneratedFault (program_text seed size) (offer_text seed size) line file
        → MatchResult result (λ _. ⊥) (λ fault. IsToldAt line file fault.0 fault.1.now) }
{
    match generate(alloc, seed, size) {
        Ok((text, offer)) => read_both(alloc, &text, offer, size / 2),
        Err(_) => Err((FaultLine::Memory, "")),
    }
}

/// The program of a text, and another text as its only offer.
fn read_both(
    alloc: Global,
    text: &[u8],
    offer: Vec<u8>,
    lines: u32,
) -> Result<(Typed, Offers), (FaultLine, &'static str)>
    ensures program { IfOk result (λ read. IsKnownProgram (Some text.now) read.0) }
    ensures offer { IfOk result (λ read. IsOnlyOffer offer.items lines read.1) }
    ensures fault { IfErr result (λ fault. (fault.0 ≡ FaultLine.Memory) ⊎ GeneratedFault text.now offer.items fault.0 fault.1.now) }
    ensures complete { (program next : Program) → IsKnownProgram (Some text.now) program
        → IsKnownProgram (Some offer.items) next → IfErr result (λ fault. fault.0 ≡ FaultLine.Memory) }
    ensures first { (line : Line) (file : List ℕ) → GeneratedFault text.now offer.items line file
        → MatchResult result (λ _. ⊥) (λ fault. IsToldAt line file fault.0 fault.1.now) }
{
    match program_in(alloc, text) {
        Ok(program) => with_offer(alloc, program, offer, lines),
        Err(line) => Err((line, PROGRAM)),
    }
}

/// A program with a text as its only offer.
fn with_offer(
    alloc: Global,
    program: Typed,
    offer: Vec<u8>,
    lines: u32,
) -> Result<(Typed, Offers), (FaultLine, &'static str)>
    ensures program { IfOk result (λ read. read.0 ≡ program) }
    ensures offer { IfOk result (λ read. IsOnlyOffer offer.items lines read.1) }
    ensures fault { IfErr result (λ fault. (fault.0 ≡ FaultLine.Memory)
        ⊎ ((fault.1.now ≡ codes "generated offer") × KnownProgramFault (Some offer.items) fault.0)) }
    ensures complete { (next : Program) → IsKnownProgram (Some offer.items) next → IfErr result (λ fault. fault.0 ≡ FaultLine.Memory) }
    ensures first { (line : Line) → KnownProgramFault (Some offer.items) line
        → MatchResult result (λ _. ⊥) (λ fault. IsToldAt line (codes "generated offer") fault.0 fault.1.now) }
{
    match only_offer(alloc, offer, lines) {
        Ok(offers) => Ok((program, offers)),
        Err(line) => Err((line, OFFER)),
    }
}

/// A text as the only offer, with how many lines the program must have printed before it.
fn only_offer(alloc: Global, text: Vec<u8>, lines: u32) -> Result<Offers, FaultLine>
    ensures read { IfOk result (λ offers. IsOnlyOffer text.items lines offers) }
    ensures fault { IfErr result (λ line. (line ≡ FaultLine.Memory) ⊎ KnownProgramFault (Some text.items) line) }
    ensures complete { (program : Program) → IsKnownProgram (Some text.items) program
        → IfErr result (λ line. line ≡ FaultLine.Memory) }
    ensures first { (line : Line) → KnownProgramFault (Some text.items) line → MatchResult result (λ _. ⊥) (IsTold line) }
{
    match program_in(alloc, &text) {
        Ok(typed) => one_offer(alloc, Source { text, typed }, lines),
        Err(line) => Err(line),
    }
}

/// A text that was read as the only offer.
fn one_offer(alloc: Global, source: Source, lines: u32) -> Result<Offers, FaultLine>
    ensures texts { IfOk result (λ offers. offers.texts.items ≡ source.text.items ∷ []) }
    ensures programs { IfOk result (λ offers. offers.programs.items ≡ source.typed ∷ []) }
    ensures counts { IfOk result (λ offers. offers.lines.items ≡ lines ∷ []) }
    ensures fault { IfErr result (λ line. line ≡ FaultLine.Memory) }
{
    let mut offers = no_offers(alloc);
    match add_offer(&mut offers, source, lines) {
        Ok(()) => Ok(offers),
        Err(_) => Err(FaultLine::Memory),
    }
}

/// The program of a text, or why it has none.
fn program_in(alloc: Global, text: &[u8]) -> Result<Typed, FaultLine>
    ensures read { IfOk result (λ program. IsKnownProgram (Some text.now) program) }
    ensures fault { IfErr result (λ line. (line ≡ FaultLine.Memory) ⊎ KnownProgramFault (Some text.now) line) }
    ensures complete { (program : Program) → IsKnownProgram (Some text.now) program
        → IfErr result (λ line. line ≡ FaultLine.Memory) }
    ensures first { (line : Line) → KnownProgramFault (Some text.now) line → MatchResult result (λ _. ⊥) (IsTold line) }
{
    if text.len() > TEXT_LIMIT {
        return Err(FaultLine::TooLong);
    }
    tree_of(alloc, text)
}
