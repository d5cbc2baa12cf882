ghost use Rattle.std.specs.Prelude.{◌≡◌, ◌⊎◌, ◌++◌, ◌∷◌, ℕ, List as ListOf, [], length, IfOk, IfErr, IsErrOf, MatchResult, OnOk};
ghost use Rattle.dsu_io.specs.Causes.{NoneFailed};
ghost use Rattle.c_tree.specs.declared.def.Program.{Program};
ghost use Rattle.dsu_report.specs.declared.fault.FaultLine.{FaultLine as Line};
ghost use Rattle.input_files.specs.Files.{IsShort};
ghost use Rattle.input_files.specs.Sources.{IsSource};
ghost use Rattle.job_answers.specs.Jobs.{AreKnownPrograms, AreSources, IsKnownProgram, IsProgramFault, KnownOfferFault, KnownProgramFault, OfferStops, OutOfMemory, lines_of};
ghost use Rattle.reported_runs.specs.Offers.{IsOneMore};

use c_types::Typed;
use dsu_cli::Offer;
use dsu_io::{Files, List};
use dsu_report::FaultLine;
use input_files::Source;
use job_answers::source_in;
use std::alloc::{AllocError, Global};

/// What was read of the offers of a job, in the order of the words.
#[derive(Drop)]
pub struct Offers {
    /// The bytes of each text.
    pub texts: Vec<List<u8>>,
    pub programs: Vec<Typed>,
    /// How many lines the program must have printed before each.
    pub lines: Vec<u32>,
}

/// Reads the files of offers in their order, each in full before the next one. A fault comes with the name of its file.
pub fn offers_in<'a, F: Files>(
    alloc: Global,
    files: &mut F,
    offers: &'a [Offer],
) -> Result<Offers, (FaultLine, &'a str)>
    ensures read { IfOk result (λ read. AreSources (F.content files.old) offers.now read.texts.items read.programs.items) }
    ensures lines { IfOk result (λ read. read.lines.items ≡ lines_of offers.now) }
    ensures each { IfOk result (λ read. length read.programs.items ≡ length offers.now) }
    ensures fault { IfErr result (λ fault. OutOfMemory (F.faults files.old) (F.faults files.new) fault.0
        ⊎ OfferStops offers.now (F.content files.old) (F.faults files.old) (F.faults files.new) fault.0 fault.1.now) }
    ensures none_failed { OnOk result (NoneFailed (F.faults files.old) (F.faults files.new)) }
    ensures complete { (programs : ListOf Program) → AreKnownPrograms (F.content files.old) offers.now programs
        → MatchResult result (λ read. read.programs.items ≡ programs) (λ fault. IsShort fault.0) }
    ensures first { (line : Line) (file : ListOf ℕ) → KnownOfferFault offers.now (F.content files.old) line file
        → MatchResult result (λ read. ⊥) (λ fault. ((fault.0 ≡ line) × (fault.1.now ≡ file)) ⊎ IsShort fault.0) }
{
    let mut read = no_offers(alloc);
    for offer in offers {
        if let Err(line) = read_offer(alloc, files, offer, &mut read) {
            return Err((line, offer.file.as_str()));
        }
    }
    Ok(read)
}

/// No offer.
pub fn no_offers(alloc: Global) -> Offers
    ensures texts { result.texts.items ≡ [] }
    ensures programs { result.programs.items ≡ [] }
    ensures lines { result.lines.items ≡ [] }
{
    Offers {
        texts: Vec::new(alloc),
        programs: Vec::new(alloc),
        lines: Vec::new(alloc),
    }
}

/// Reads the file of one more offer.
fn read_offer<F: Files>(
    alloc: Global,
    files: &mut F,
    offer: &Offer,
    read: &mut Offers,
) -> Result<(), FaultLine>
    ensures read { OnOk result (IsOneMore (F.content files.old offer.now.file) offer.now.lines read.old read.new) }
    ensures fault { IfErr result (λ line. OutOfMemory (F.faults files.old) (F.faults files.new) line
        ⊎ IsProgramFault offer.now.file (F.content files.old offer.now.file) (F.faults files.old) (F.faults files.new) line) }
    ensures same { (other : ListOf ℕ) → F.content files.new other ≡ F.content files.old other }
    ensures none_failed { OnOk result (NoneFailed (F.faults files.old) (F.faults files.new)) }
    ensures complete { (program : Program) → IsKnownProgram (F.content files.old offer.now.file) program
        → MatchResult result (λ _. read.new.programs.items ≡ read.old.programs.items ++ program ∷ []) IsShort }
    ensures first { (line : Line) → KnownProgramFault (F.content files.old offer.now.file) line
        → IsErrOf result line ⊎ IsErrOf result FaultLine.Unread ⊎ IsErrOf result FaultLine.Memory }
{
    let source = source_in(alloc, files, offer.file.as_str())?;
    match add_offer(read, source, offer.lines) {
        Ok(()) => Ok(()),
        Err(_) => Err(FaultLine::Memory),
    }
}

/// Adds an offer to those that were read.
pub fn add_offer(read: &mut Offers, source: Source, lines: u32) -> Result<(), AllocError>
    ensures texts { OnOk result (read.new.texts.items ≡ read.old.texts.items ++ source.text.items ∷ []) }
    ensures programs { OnOk result (read.new.programs.items ≡ read.old.programs.items ++ source.typed ∷ []) }
    ensures lines { OnOk result (read.new.lines.items ≡ read.old.lines.items ++ lines ∷ []) }
{
    let Source { text, typed } = source;
    read.texts.push(List::of(text))?;
    read.programs.push(typed)?;
    read.lines.push(lines)?;
    Ok(())
}
